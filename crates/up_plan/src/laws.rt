//! What plans promise, in an operator's words. Each function is empty: its contract is a theorem on the rule.
ghost use Rattle.up_plan.specs.Laws.{AllOrNone, AssignedIsConsistent, AssignedIsDue, CampaignsInAnyOrder, ImagesInAnyOrder, NothingWanted, OtherImagesChangeNothing, OthersChangeNothing, WantedIsDue, WithheldHasCause, WithheldIsFirstUnmet};
ghost use Rattle.up_plan.specs.Offers.{OffersAloneCount};

/// What an ECU wants is registered, offered for its hardware by a running campaign that reaches the vehicle, and above its
/// level, and nothing above it is offered; an ECU that wants nothing has nothing above its level offered.
pub fn wanted_is_due()
    ensures { WantedIsDue }
{}

/// What is assigned is due to an ECU of the vehicle.
pub fn assigned_is_due()
    ensures { AssignedIsDue }
{}

/// Each ECU that wants an image gets it, or none does; nothing is assigned or withheld where none is wanted.
pub fn all_or_none()
    ensures all_or_none { AllOrNone }
    ensures none_wanted { NothingWanted }
{}

/// Where wanted images are withheld, the cause is a need or conflict that isn't met, and all before it are.
pub fn withheld_for_the_first_unmet()
    ensures first { WithheldIsFirstUnmet }
    ensures named { WithheldHasCause }
{}

/// Where something is assigned, each need and conflict of the resulting set is met.
pub fn assigned_is_consistent()
    ensures { AssignedIsConsistent }
{}

/// A campaign that is closed or for other vehicles changes nothing.
pub fn other_campaigns_change_nothing()
    ensures { OthersChangeNothing }
{}

/// Neither the order of campaigns nor that of images with distinct filenames changes anything.
pub fn order_changes_nothing()
    ensures campaigns { CampaignsInAnyOrder }
    ensures images { ImagesInAnyOrder }
{}

/// An image of which nothing speaks changes nothing: where a test of filenames is passed by the files of the vehicle's items
/// and of the reported images, the images that fail it may be left out, or others put in their place.
pub fn other_images_change_nothing()
    ensures { OtherImagesChangeNothing }
{}

/// A plan depends on items only through what they offer.
pub fn offers_alone_count()
    ensures { OffersAloneCount }
{}
