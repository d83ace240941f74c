//! The laws of the plain machine.
ghost use Rattle.up_machine.specs.Laws.{RefusalsChangeNothing, AlreadyChangesNothing, EmptyIsSound, StepsStaySound, RunsStaySound, CountersTellEntries, VersionsAreCounts, LaterIsReflexive, LaterIsTransitive, StepsGrow, RunsGrow, RetiredStayRetired, RetiredAreNoEcus, RetiredAreNeverRecorded, KeptRepliesStay, KeptRepliesOutlastRuns, AssignedFitTheirEcus};
ghost use Rattle.up_machine.specs.RepeatLaws.{RepeatsAreStale, RepeatsGetKeptReplies, CountersFindRepeats, OlderCountersAreStale, RepeatsChangeNothing, ServedIsThinned, ServedStaysSound};
ghost use Rattle.up_machine.specs.ApartLaws.{VehiclesStandApart, DeliveriesCommute, InstalledIsOfTheVehicle};
ghost use Rattle.up_machine.specs.Primaries.{DeliveriesKeepPrimaries};
ghost use Rattle.up_machine.specs.RowLaws.{FoundingRowFits, VehicleRowsFit};
ghost use Rattle.up_machine.specs.Made.{EmptyIsMade, StepsMake, RunsMake};
ghost use Rattle.up_machine.specs.SignedLaws.{RootsAreSigned, ImageFilesAreSigned, RepliesAreSigned, ServedFilesAreKnown};
ghost use Rattle.up_machine.specs.TwoSteps.{FoundedInTwoSteps, RotatedInTwoSteps, RegisteredInTwoSteps, RefreshedInTwoSteps};

use up_manifest::body_laws;
use up_plan::laws::assigned_is_due;

/// A refused command changes nothing, and neither does one whose effect is there already.
pub fn refusals_change_nothing()
    ensures refused { RefusalsChangeNothing }
    ensures already { AlreadyChangesNothing }
{}

/// Every state that commands reach from the empty one is sound: limits hold, keys fit, an identifier is that of an ECU, or of a
/// replaced one, of one vehicle alone, what campaigns and plans name exists, and each kept manifest is one of its vehicle, with
/// counters that rise.
pub fn states_stay_sound()
    ensures empty { EmptyIsSound }
    ensures step { StepsStaySound }
    ensures run { RunsStaySound }
{
    body_laws();
}

/// A vehicle has at most one accepted manifest of a given counter, and its version is at most its last counter.
pub fn counters_tell_entries()
    ensures apart { CountersTellEntries }
    ensures versions { VersionsAreCounts }
{}

/// Roots, images and vehicles are only added. A vehicle keeps its Primary, its accepted manifests and retired identifiers only
/// grow, and an identifier that was taken stays taken.
pub fn states_only_grow()
    ensures reflexive { LaterIsReflexive }
    ensures transitive { LaterIsTransitive }
    ensures step { StepsGrow }
    ensures run { RunsGrow }
{}

/// A retired identifier stays retired, and no ECU of any vehicle has it, now or ever again.
pub fn retired_stay_retired()
    ensures stay { RetiredStayRetired }
    ensures apart { RetiredAreNoEcus }
    ensures never { RetiredAreNeverRecorded }
{
    body_laws();
}

/// Whatever is delivered, every vehicle keeps its Primary, and the Primary its key. So what was once read of them stays true.
pub fn deliveries_keep_primaries()
    ensures { DeliveriesKeepPrimaries }
{}

/// Each image that is assigned in a sound state is registered, and may be installed on the hardware of its ECU.
pub fn assigned_images_fit()
    ensures { AssignedFitTheirEcus }
{
    assigned_is_due();
}

/// The reply that was kept for an accepted manifest is the same text in every later state, whatever keys were rotated,
/// images added and campaigns closed since.
pub fn kept_replies_stay()
    ensures later { KeptRepliesStay }
    ensures run { KeptRepliesOutlastRuns }
{}

/// A repeat of an accepted manifest is found by its counter, is answered the reply that was kept for it, and is stale to the
/// plain machine, which keeps its state; an older counter that was never seen is stale too.
pub fn repeats_are_found()
    ensures stale { RepeatsAreStale }
    ensures kept { RepeatsGetKeptReplies }
    ensures found { CountersFindRepeats }
    ensures older { OlderCountersAreStale }
{
    body_laws();
}

/// The state after a list is that after the list without its repeats, which is also what serving the list leaves.
pub fn repeats_change_nothing()
    ensures thinned { RepeatsChangeNothing }
    ensures served { ServedIsThinned }
    ensures sound { ServedStaysSound }
{
    body_laws();
}

/// What other vehicles deliver doesn't touch a vehicle or its answers, and neighbouring deliveries of different vehicles may
/// be exchanged.
pub fn vehicles_stand_apart()
    ensures apart { VehiclesStandApart }
    ensures exchanged { DeliveriesCommute }
    ensures installed { InstalledIsOfTheVehicle }
{}

/// Every run leaves just the Root files, other files and replies that are made, byte for byte, of the keys and moments of its
/// foundings and rotations.
pub fn runs_make_files()
    ensures empty { EmptyIsMade }
    ensures step { StepsMake }
    ensures run { RunsMake }
{
    body_laws();
}

/// Every Root file, every file of the image repository and every file in a kept reply that is made is an envelope over the text
/// of its payload, and is accepted under the keys and the threshold of its role in its root version, and a later Root file also
/// under those of the version before. A kept reply has the three files of its metadata set.
pub fn files_are_signed()
    ensures roots { RootsAreSigned }
    ensures images { ImageFilesAreSigned }
    ensures replies { RepliesAreSigned }
    ensures known { ServedFilesAreKnown }
{
    up_metadata::laws::files_are_signed();
}

/// The rows of a sound state have what decisions ask of them.
pub fn rows_are_sound()
    ensures founding { FoundingRowFits }
    ensures vehicles { VehicleRowsFit }
{}

/// A decision that is taken in two steps is the plain machine's. The first step tells what is due, over the rows of a sound
/// state that its rule reads; the second makes the rows of just that, over all images. Both together answer the rows of the
/// plain machine's next state, `Already`, or the refusal that is due.
pub fn decided_in_two_steps()
    ensures founding { FoundedInTwoSteps }
    ensures rotation { RotatedInTwoSteps }
    ensures image { RegisteredInTwoSteps }
    ensures refresh { RefreshedInTwoSteps }
{}
