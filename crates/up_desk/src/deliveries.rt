//! Manifests that vehicles deliver.
ghost use Rattle.std.specs.Prelude.{◌≤◌, IfSome};
ghost use Rattle.up_canon.specs.Moments.{last_command_moment};
ghost use Rattle.up_machine.specs.declared.command.Command.TheVariants.{Deliver};
ghost use Rattle.up_machine.specs.Decisions.{IsRead, decide_incoming};
ghost use Rattle.up_records.specs.Catalogs.{CanDecide};
ghost use Rattle.up_desk.specs.Carrying.{CarriesIn};
ghost use Rattle.up_desk.specs.Serving.{outcome_due};

use crate::carried::{Carried, put_of};
use crate::command_moment::CommandMoment;
use sqlite::{Alter, Transaction};
use std::alloc::Global;
use up_canon::bytes::Bytes;
use up_canon::moment::Moment;
use up_canon::refusal::Refusal;
use up_machine::answer::Answer;
use up_machine::decision::Delivered;
use up_machine::kept_reply::{reply_in, targets_in};
use up_manifest::manifest::Incoming;
use up_manifest::manifest_read::read_manifest;
use up_records::catalog::Catalog;
use up_records::deciding::decide;
use up_rows::laws::{ecus_tell_their_hash, manifests_are_added, rows_are_found};
use up_sign::key_cache::KeyCache;
use up_sign::scheme::Scheme;
use up_store::manifests::put_accepted;

/// Takes in a manifest, or answers a repeat by the reply that was kept for it.
pub fn deliver<K: Scheme, D: Alter>(
    tx: &mut Transaction<'_, D>,
    catalog: &mut Option<Catalog>,
    keys: &mut KeyCache,
    alloc: Global,
    scheme: &K,
    at: CommandMoment,
    body: &Bytes,
) -> Result<Carried, Refusal>
    requires can { IfSome catalog.old (CanDecide (K.rules scheme.now)) }
    ensures { CarriesIn D.Store (K.rules scheme.now)
        (λ s. outcome_due (K.rules scheme.now) s at (Deliver body.now))
        tx.old.conn tx.new.conn catalog.old catalog.new result }
{
    let at = at.moment();
    match read_manifest(alloc, body.as_slice()) {
        Ok(incoming) => receive(tx, catalog, keys, alloc, scheme, at, &incoming),
        Err(refusal) => Err(refusal),
    }
}

/// A manifest that was read is decided on, and the rows of one that is accepted are put. Its reply is made of the rows themselves, so
/// that nothing grows between the commit and the answer. What is kept in memory stays.
fn receive<K: Scheme, D: Alter>(
    tx: &mut Transaction<'_, D>,
    catalog: &mut Option<Catalog>,
    keys: &mut KeyCache,
    alloc: Global,
    scheme: &K,
    at: Moment,
    incoming: &Incoming,
) -> Result<Carried, Refusal>
    requires given { (at ≤ last_command_moment) × IsRead incoming.now }
    requires can { IfSome catalog.old (CanDecide (K.rules scheme.now)) }
    ensures { CarriesIn D.Store (K.rules scheme.now) (λ s. decide_incoming (K.rules scheme.now) s at incoming.now)
        tx.old.conn tx.new.conn catalog.old catalog.new result }
{
    rows_are_found();
    manifests_are_added();
    ecus_tell_their_hash();
    let rows = match decide(tx, catalog, keys, alloc, scheme, at, incoming) {
        Ok(Delivered::Repeat(reply)) => return Ok(Carried::Unchanged(Answer::Reply(reply))),
        Ok(Delivered::Accepted(rows)) => rows,
        Err(refusal) => return Err(refusal),
    };
    match targets_in(&rows.kept) {
        Ok(targets) => {
            let put = put_accepted(tx, alloc, &rows);
            put_of(Answer::Reply(reply_in(rows.kept, targets)), put)
        }
        Err(_) => Err(Refusal::Memory),
    }
}
