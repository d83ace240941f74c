//! The laws of the rows of a state.
ghost use Rattle.up_rows.specs.Laws.{RowsTellTheState, NoRowsOfTheEmptyState, FoundedIsFound, VehiclesAreFound, KeptAreFound, TakenAreFound, FilesAreFound, VersionsAreTold, EcusAreTold, InstalledIsTold, AssignedIsTold, EcusTellTheirHash, RootsAreAdded, FilesAreReplaced, ImagesAreAdded, VehiclesAreAdded, EcusAreReplaced, CampaignsAreWritten, ManifestsAreAdded};
ghost use Rattle.up_rows.specs.Fitting.{NewImagesAreNew, NewVehiclesAreNew, ReplacementsFit, NewCampaignsAreNew};

use up_manifest::body_laws;

/// The rows of a sound state tell the state, and the empty state has none.
pub fn rows_tell_the_state()
    ensures told { RowsTellTheState }
    ensures empty { NoRowsOfTheEmptyState }
{}

/// What is looked up among the rows of a state is the state's: the founding, a vehicle, the row of a counter, whether an
/// identifier is that of an ECU or of one that was replaced, and the text of a file.
pub fn rows_are_found()
    ensures founded { FoundedIsFound }
    ensures vehicles { VehiclesAreFound }
    ensures kept { KeptAreFound }
    ensures taken { TakenAreFound }
    ensures files { FilesAreFound }
{}

/// What is read of the inventory is told by the rows: a vehicle's version, its ECUs, the image that an ECU reported last, and
/// what is assigned to a vehicle.
pub fn views_are_told()
    ensures versions { VersionsAreTold }
    ensures ecus { EcusAreTold }
    ensures installed { InstalledIsTold }
    ensures assigned { AssignedIsTold }
{}

/// The row of each ECU tells the second hash that the text of its last report has, so that no column has to keep it.
pub fn ecus_tell_their_hash()
    ensures { EcusTellTheirHash }
{
    body_laws();
}

/// One more root version takes the rows of a sound state to those of the state with it.
pub fn roots_are_added()
    ensures { RootsAreAdded }
{}

/// New files of the image repository, and an image with them, take the rows of a sound state to those of the next.
pub fn images_are_added()
    ensures files { FilesAreReplaced }
    ensures images { ImagesAreAdded }
    ensures new { NewImagesAreNew }
{}

/// A vehicle takes the rows of a state that doesn't have it to those of the state with it.
pub fn vehicles_are_added()
    ensures vehicles { VehiclesAreAdded }
    ensures new { NewVehiclesAreNew }
{}

/// An ECU that replaces another one takes the rows of a sound state to those of the state with it.
pub fn ecus_are_replaced()
    ensures replaced { EcusAreReplaced }
    ensures fits { ReplacementsFit }
{}

/// A campaign that is opened or closed takes the rows of a state to those of the state with it.
pub fn campaigns_are_written()
    ensures campaigns { CampaignsAreWritten }
    ensures new { NewCampaignsAreNew }
{}

/// An accepted manifest takes the rows of a state to those of the state with it.
pub fn manifests_are_added()
    ensures { ManifestsAreAdded }
{}
