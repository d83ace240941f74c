//! Files of the repositories.
ghost use Rattle.up_sign.specs.Schemes.{Rules};
ghost use Rattle.up_machine.specs.Repositories.{decide_fetch as decide_fetch_in};
ghost use Rattle.up_desk.specs.Carrying.{CarriesIn};
ghost use Rattle.up_desk.specs.Deciding.{DecidesFile};
ghost use Rattle.up_records.specs.declared.catalog.Catalog.{Catalog};
ghost use Rattle.std.specs.Prelude.{Option};

use crate::carried::Carried;
use crate::command_moment::CommandMoment;
use sqlite::{Alter, Transaction};
use std::alloc::Global;
use up_canon::file_name::FileName;
use up_canon::refusal::Refusal;
use up_canon::text::Text;
use up_machine::answer::Answer;
use up_machine::decide_fetch::decide_fetch;
use up_records::faults::refusal_of;
use up_roles::repository::Repository;
use up_rows::laws::rows_are_found;
use up_store::roots::{find_file, find_whether_founded};

/// The text of a file.
pub fn fetch<D: Alter>(
    tx: &mut Transaction<'_, D>,
    alloc: Global,
    at: CommandMoment,
    repository: Repository,
    name: &FileName,
) -> Result<Carried, Refusal>
    ensures { (k : Rules) (kept : Option Catalog) → CarriesIn D.Store k
        (λ s. decide_fetch_in s at repository name.now) tx.old.conn tx.new.conn kept kept result }
{
    match read_file(tx, alloc, at, repository, name) {
        Ok(text) => Ok(Carried::Unchanged(Answer::File(text))),
        Err(refusal) => Err(refusal),
    }
}

/// Decides on the file, over the rows that are read. Where there is no such file, whether the repositories are founded is read for the
/// refusal alone.
fn read_file<D: Alter>(
    tx: &mut Transaction<'_, D>,
    alloc: Global,
    at: CommandMoment,
    repository: Repository,
    name: &FileName,
) -> Result<Text, Refusal>
    ensures { (k : Rules) → DecidesFile D.Store k at repository name.now tx.old.conn tx.new.conn result }
{
    rows_are_found();
    match find_file(tx, alloc, repository, name) {
        Ok(Some(text)) => decide_fetch(at.moment(), true, Some(text)),
        Ok(None) => match find_whether_founded(tx, alloc) {
            Ok(founded) => decide_fetch(at.moment(), founded, None),
            Err(fault) => Err(refusal_of(fault)),
        },
        Err(fault) => Err(refusal_of(fault)),
    }
}
