//! The laws. Each function is empty but for laws that it calls: its contract is a theorem.
ghost use Rattle.up_uptane.specs.Deliveries.{DeliveriesChangeTheirOwn, RepliesAreKept, NewRepliesAreOfAllEcus};
ghost use Rattle.up_uptane.specs.Fitting.{NewRepliesFit};
ghost use Rattle.up_uptane.specs.Offers.{RepliesOfferWhatIsListed};
ghost use Rattle.up_uptane.specs.Rotations.{RotationsLeaveOut, NewRepliesAreOfTheLastRoot};
ghost use Rattle.up_uptane.specs.Verifying.{RootsVerify, FilesVerify, RepliesVerify};
ghost use Rattle.up_uptane.specs.Versions.{ImageVersionsNeverFall, RootVersionsNeverFall, RepliesRise, RepliesStayKept};

use up_canon::moment::moment_laws;
use up_laws::laws::{plans_name_ecus_once, replies_are_read_again, states_stay_typed};
use up_machine::laws::{
    assigned_images_fit, files_are_signed, kept_replies_stay, runs_make_files, states_stay_sound,
};
use up_plan::laws::assigned_is_due;
use up_primary::laws::{files_are_read_again, roots_are_fetched};
use up_roles::laws::role_laws;
use up_sign::laws::envelope_laws;

/// A delivery that is refused changes nothing. One that is answered a reply adds one manifest to its own vehicle, raises that vehicle's
/// version by one and changes nothing else; and the reply is kept under its version.
pub fn deliveries_change_their_own()
    ensures own { DeliveriesChangeTheirOwn }
    ensures kept { RepliesAreKept }
{}

/// A new reply means that the vehicle's Primary has signed the manifest, and that just one report of each ECU of the inventory is in
/// it, each valid under that ECU's key, and no other.
pub fn new_replies_are_of_all_ecus()
    ensures { NewRepliesAreOfAllEcus }
{
    states_stay_sound();
}

/// The versions of the Image repository's Targets, Snapshot and Timestamp never fall, and each version is one text. Each Root of either
/// repository stays published under its number, with the same text.
pub fn published_versions_never_fall()
    ensures images { ImageVersionsNeverFall }
    ensures roots { RootVersionsNeverFall }
{
    states_stay_sound();
    runs_make_files();
    states_stay_typed();
    plans_name_ecus_once();
    files_are_read_again();
    roots_are_fetched();
}

/// A vehicle's versions rise: what is replied to it anew has a greater one than each reply that was kept for it, which stays as it was.
pub fn reply_versions_rise()
    ensures rise { RepliesRise }
    ensures stay { RepliesStayKept }
{
    kept_replies_stay();
    deliveries_change_their_own();
}

/// Each target in a kept reply's bytes is in the Image repository's Targets as they are published, then and in every later state, with
/// equal hashes, length, hardware and release.
pub fn replies_offer_what_is_listed()
    ensures { RepliesOfferWhatIsListed }
{
    states_stay_sound();
    runs_make_files();
    states_stay_typed();
    plans_name_ecus_once();
    replies_are_read_again();
    files_are_read_again();
}

/// Each target in a new reply's bytes is for an ECU of the vehicle, may be installed on that ECU's hardware, and is of a greater
/// release than the image that the ECU reports, where that is registered.
pub fn new_replies_fit_and_are_newer()
    ensures { NewRepliesFit }
{
    states_stay_sound();
    runs_make_files();
    states_stay_typed();
    plans_name_ecus_once();
    assigned_is_due();
    assigned_images_fit();
    replies_are_read_again();
}

/// Behind a rotation the next Root is signed by its own root keys, and by those before that aren't among them. A key that no later Root
/// gives a role has signed that Root and nothing else that is published since; and every new reply is signed by the Director's keys in
/// the last Root.
pub fn rotations_leave_keys_out()
    ensures published { RotationsLeaveOut }
    ensures replies { NewRepliesAreOfTheLastRoot }
{
    states_stay_sound();
    runs_make_files();
    files_are_signed();
    roots_are_fetched();
}

/// Every published file is read again as what it is. Enough of the root keys that a Root gives have signed it and the Root of the next
/// number, from the first Root to the last. Enough keys of its role in the last Root have signed every other file; and those in a kept
/// reply, enough of that role in the Director's Root that the reply names.
pub fn published_files_verify()
    ensures roots { RootsVerify }
    ensures files { FilesVerify }
    ensures replies { RepliesVerify }
{
    moment_laws();
    envelope_laws();
    role_laws();
    states_stay_sound();
    runs_make_files();
    states_stay_typed();
    plans_name_ecus_once();
    files_are_signed();
    replies_are_read_again();
    roots_are_fetched();
    files_are_read_again();
}
