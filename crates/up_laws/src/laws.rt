//! The laws. Each function is empty: its contract is a theorem.
ghost use Rattle.up_laws.specs.Deliveries.{DeliveriesAreDecided, NewDeliveriesAreDecided, RepeatsAreDecided, DeliveredInTwoSteps};
ghost use Rattle.up_laws.specs.Plans.{PlansAreOfTheirEcus, EmptyHasOwnPlans, StepsKeepOwnPlans, RunsKeepOwnPlans, RepliesNameEcusOnce};
ghost use Rattle.up_laws.specs.Readings.{RepliesAreReadAgain};
ghost use Rattle.up_laws.specs.Typed.{EmptyIsTyped, StepsStayTyped, RunsStayTyped};

use up_canon::moment::moment_laws;
use up_machine::laws::states_stay_sound;
use up_roles::laws::role_laws;
use up_sign::laws::envelope_laws;

/// Of distinct ECUs a plan assigns images to some, at most one to each. In every state that commands reach, each accepted
/// manifest's plan is of at most 32 ECUs of its vehicle, none twice, of which some may have been replaced since.
pub fn plans_name_ecus_once()
    ensures plans { PlansAreOfTheirEcus }
    ensures empty { EmptyHasOwnPlans }
    ensures step { StepsKeepOwnPlans }
    ensures run { RunsKeepOwnPlans }
{
    states_stay_sound();
}

/// So no reply's Targets name an ECU twice, whether the manifest is new or a repeat.
pub fn replies_name_ecus_once()
    ensures { RepliesNameEcusOnce }
{}

/// In every state that commands reach, identifiers, filenames, counts and hashes are within the limits of their types, if those of
/// the commands are.
pub fn states_stay_typed()
    ensures empty { EmptyIsTyped }
    ensures step { StepsStayTyped }
    ensures run { RunsStayTyped }
{}

/// So the three files of each reply are read again: the text of each is canonical, small enough and read as that file, in the
/// envelope that was sealed.
pub fn replies_are_read_again()
    ensures { RepliesAreReadAgain }
{
    moment_laws();
    envelope_laws();
    role_laws();
}

/// What is decided of a delivery's body over the rows of its vehicle is what serving the delivery gives: the plain machine's
/// decision, or the kept reply of a repeat. Reading the body and deciding on its manifest, each as its contract says, come to
/// just that.
pub fn deliveries_are_decided()
    ensures served { DeliveriesAreDecided }
    ensures new { NewDeliveriesAreDecided }
    ensures repeats { RepeatsAreDecided }
    ensures steps { DeliveredInTwoSteps }
{}
