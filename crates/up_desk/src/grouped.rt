//! Commands that share a session, and its commit.
ghost use Rattle.std.specs.Prelude.{◌≡◌, ◌||◌, is_ok, Err, IfSome};
ghost use Rattle.sqlite.specs.Held.{state as held_state};
ghost use Rattle.up_tables.specs.Stands.{IfClean, IsInside};
ghost use Rattle.up_records.specs.Catalogs.{CanDecide};
ghost use Rattle.up_records.specs.Standing.{CanUse, state};
ghost use Rattle.up_desk.specs.Carrying.{CarriesIn};
ghost use Rattle.up_desk.specs.Groups.{AreCalledOrUndone, CanRun, CarriesAll, EndsAll, as_one as one_of, told_by as told_of};
ghost use Rattle.up_desk.specs.Serving.{outcome_due, outright as outright_of};

use crate::carried::{Carried, finish};
use crate::command_moment::CommandMoment;
use crate::dispatch::{carry, keeps_limits, outright};
use sqlite::{Alter, Transaction};
use std::alloc::Global;
use up_canon::refusal::Refusal;
use up_machine::answer::Answer;
use up_machine::command::Command;
use up_machine::laws::{
    kept_replies_stay, repeats_change_nothing, states_stay_sound, vehicles_stand_apart,
};
use up_records::catalog::{Catalog, forget};
use up_records::records::Records;
use up_sign::key_cache::KeyCache;
use up_sign::scheme::Scheme;
use up_store::store::Store;

/// Answers commands one after another in one session, and commits once what they put. Where one of them fails, or the commit, all
/// of it is undone, and nothing is answered.
pub fn run_group<K: Scheme, D: Alter>(
    records: &mut Records<D>,
    alloc: Global,
    scheme: &K,
    commands: &[(u64, Command)],
    answers: &mut Vec<Answer>,
) -> bool
    requires { CanRun (K.rules scheme.now) commands.now records.old.catalog answers.old }
    ensures ends { AreCalledOrUndone (K.rules scheme.now) commands.now answers.old answers.new
        (state D.Store records.old) (state D.Store records.new) result }
    ensures usable { CanUse (K.rules scheme.now) (state D.Store records.new) }
{
    states_stay_sound();
    repeats_change_nothing();
    kept_replies_stay();
    vehicles_stand_apart();
    let held = answers.as_slice().len();
    let done = commit_all(
        &mut records.store,
        &mut records.catalog,
        &mut records.keys,
        alloc,
        scheme,
        commands,
        answers,
    );
    if done {
        return true;
    }
    forget(&mut records.catalog); // It may be of what was undone.
    answers.truncate(held);
    false
}

/// Carries out commands in one session, and commits what they put, unless one of them fails.
fn commit_all<K: Scheme, D: Alter>(
    store: &mut Store<D>,
    catalog: &mut Option<Catalog>,
    keys: &mut KeyCache,
    alloc: Global,
    scheme: &K,
    commands: &[(u64, Command)],
    answers: &mut Vec<Answer>,
) -> bool
    requires { CanRun (K.rules scheme.now) commands.now catalog.old answers.old }
    ensures { EndsAll D.Store (K.rules scheme.now) commands.now answers.old answers.new store.old store.new
        catalog.old catalog.new result }
{
    let mut tx = store.conn.transaction();
    let put = carry_each(&mut tx, catalog, keys, alloc, scheme, commands, answers);
    is_done(finish(tx, as_one(put)))
}

fn is_done(ended: Result<Answer, Refusal>) -> bool
    ensures { result ≡ is_ok ended }
{
    ended.is_ok()
}

/// Carries out commands in a session one after another, up to the first that fails: whether any rows were put.
fn carry_each<K: Scheme, D: Alter>(
    tx: &mut Transaction<'_, D>,
    catalog: &mut Option<Catalog>,
    keys: &mut KeyCache,
    alloc: Global,
    scheme: &K,
    commands: &[(u64, Command)],
    answers: &mut Vec<Answer>,
) -> Option<bool>
    requires inside { IfClean IsInside (held_state D.Store tx.old.conn.now) }
    requires run { CanRun (K.rules scheme.now) commands.now catalog.old answers.old }
    ensures { CarriesAll D.Store (K.rules scheme.now) commands.now answers.old answers.new
        tx.old.conn tx.new.conn catalog.old catalog.new result }
{
    repeats_change_nothing();
    let mut put = false;
    for item in commands {
        keeps_limits(&item.1);
        let carried = carry_timed(tx, catalog, keys, alloc, scheme, item.0, &item.1);
        match told_by(carried) {
            Some((answer, puts)) => {
                answers.push(answer).unwrap();
                let now = is_either(put, puts);
                put = now;
            }
            None => return None,
        }
    }
    Some(put)
}

fn is_either(first: bool, second: bool) -> bool
    ensures { result ≡ (first || second) }
{
    first || second
}

/// What a command comes to within a session, whose moment is checked first. What is refused outright asks nothing of the session.
fn carry_timed<K: Scheme, D: Alter>(
    tx: &mut Transaction<'_, D>,
    catalog: &mut Option<Catalog>,
    keys: &mut KeyCache,
    alloc: Global,
    scheme: &K,
    at: u64,
    command: &Command,
) -> Result<Carried, Refusal>
    requires { IfSome catalog.old (CanDecide (K.rules scheme.now)) }
    ensures carries { CarriesIn D.Store (K.rules scheme.now) (λ s. outcome_due (K.rules scheme.now) s at command.now)
        tx.old.conn tx.new.conn catalog.old catalog.new result }
    ensures outright { IfSome (outright_of (K.rules scheme.now) at command.now) (λ r. result ≡ Err r) }
{
    let Some(at) = CommandMoment::new(at) else {
        return Err(Refusal::MomentOutOfRange);
    };
    match outright(scheme, command) {
        Some(refusal) => Err(refusal),
        None => carry(tx, catalog, keys, alloc, scheme, at, command),
    }
}

/// The answer of what was carried out, and whether its rows were put; none of what failed.
fn told_by(carried: Result<Carried, Refusal>) -> Option<(Answer, bool)>
    ensures { result ≡ told_of carried }
{
    match carried {
        Ok(Carried::Put(answer)) => Some((answer, true)),
        Ok(Carried::Unchanged(answer)) => Some((answer, false)),
        Err(Refusal::Memory) => None,
        Err(Refusal::Store) => None,
        Err(refusal) => Some((Answer::Refused(refusal), false)),
    }
}

/// What all of them come to, as one command: done where any rows were put.
fn as_one(put: Option<bool>) -> Result<Carried, Refusal>
    ensures { result ≡ one_of put }
{
    match put {
        Some(true) => Ok(Carried::Put(Answer::Done)),
        Some(false) => Ok(Carried::Unchanged(Answer::Already)),
        None => Err(Refusal::Memory),
    }
}
