//! Whether the repositories are founded.
ghost use Rattle.std.specs.Prelude.{◌≡◌, true, is_some, OnOk, IfErr};
ghost use Rattle.up_canon.specs.declared.refusal.Refusal.TheVariants.{NotFounded};
ghost use Rattle.up_machine.specs.State.{State};
ghost use Rattle.up_machine.specs.Rows.{founding_row};
ghost use Rattle.up_machine.specs.Deciding.{check_founded as check_founded_in};

use up_canon::refusal::Refusal;

/// Passes where the repositories are founded, and is `NotFounded` where they aren't.
#[tactic(auto, using(crate::proofs::FoundedRow::founded_by_mark))]
pub(crate) fn check_founded(is_founded: bool) -> Result<(), Refusal>
    ensures ok { OnOk result (is_founded ≡ true) }
    ensures err { IfErr result (λ e. e ≡ NotFounded) }
    ensures checked { (s : State) → is_founded ≡ is_some (founding_row s) → result ≡ check_founded_in s }
{
    if is_founded {
        Ok(())
    } else {
        Err(Refusal::NotFounded)
    }
}
