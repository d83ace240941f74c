//! The decision on a file that is fetched.
ghost use Rattle.std.specs.Prelude.{◌≡◌, ◌≤◌, is_some};
ghost use Rattle.up_canon.specs.Moments.{last_command_moment};
ghost use Rattle.up_canon.specs.Names.{Name};
ghost use Rattle.up_roles.specs.declared.repository.Repository.{Repository};
ghost use Rattle.up_machine.specs.State.{State};
ghost use Rattle.up_machine.specs.Files.{file};
ghost use Rattle.up_machine.specs.Rows.{founding_row};
ghost use Rattle.up_machine.specs.Repositories.{decide_fetch as decide_fetch_in};
ghost use Rattle.up_machine.specs.Decisions.{GivesFile};

use up_canon::moment::Moment;
use up_canon::refusal::Refusal;
use up_canon::text::Text;

/// Decides on a file that is fetched, at a command's moment, given whether the repositories are founded and the text of the
/// file, where there is one: the text; `NotFounded`; `UnknownFile`.
pub fn decide_fetch(at: Moment, is_founded: bool, text: Option<Text>) -> Result<Text, Refusal>
    requires { at ≤ last_command_moment }
    ensures { (s : State) (repository : Repository) (name : Name)
        → is_founded ≡ is_some (founding_row s) → text ≡ file s repository name
        → GivesFile s result (decide_fetch_in s at repository name) }
{
    if !is_founded {
        return Err(Refusal::NotFounded);
    }
    match text {
        Some(text) => Ok(text),
        None => Err(Refusal::UnknownFile),
    }
}
