//! The reply that a kept row holds.
ghost use Rattle.std.specs.Prelude.{◌≡◌, ◌<◌, None, Ok, IfOk, MatchResult, length};
ghost use Rattle.up_machine.specs.Rows.{reply_kept};

use crate::answer::Reply;
use crate::rows::Kept;
use std::alloc::{AllocError, Global};
use up_canon::listed::Duplicate;
use up_plan::assigned::Cause;

/// The reply that a row holds; want of memory as `targets_in` says.
pub fn reply_of(alloc: Global, row: &Kept) -> Result<Reply, AllocError>
    ensures { IfOk result (λ reply. reply ≡ reply_kept row.now) }
{
    Ok(Reply {
        vehicle: row.vehicle.copy(alloc)?,
        version: row.version,
        targets: targets_in(row)?,
        withheld: copy_cause(alloc, &row.plan.withheld)?,
        text: row.reply.copy(alloc)?,
    })
}

/// How many images a row's plan assigns. It takes no memory, and want of memory is answered just where they are more than
/// 4294967295, which no state has.
pub fn targets_in(row: &Kept) -> Result<u32, AllocError>
    ensures { MatchResult result (λ targets. targets ≡ length row.now.plan.assigned)
        (λ _. u32.MAX < length row.now.plan.assigned) }
{
    match u32::try_from(row.plan.assigned.as_slice().len()) {
        Ok(targets) => Ok(targets),
        Err(_) => Err(AllocError),
    }
}

/// The reply that a row holds, made of the row itself; `targets` is the number of images that its plan assigns.
pub fn reply_in(row: Kept, targets: u32) -> Reply
    requires { targets ≡ length row.plan.assigned }
    ensures { result ≡ reply_kept row }
{
    let plan = row.plan;
    Reply {
        vehicle: row.vehicle,
        version: row.version,
        targets,
        withheld: plan.withheld,
        text: row.reply,
    }
}

fn copy_cause(alloc: Global, cause: &Option<Cause>) -> Result<Option<Cause>, AllocError>
    ensures value { IfOk result (λ copied. copied ≡ cause.now) }
    ensures none { cause.now ≡ None → result ≡ Ok None }
{
    match cause {
        Some(cause) => Ok(Some(cause.copy(alloc)?)),
        None => Ok(None),
    }
}
