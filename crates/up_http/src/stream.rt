//! The requests of a whole input.
ghost use Rattle.std.specs.Prelude.{◌≡◌, ◌<◌, ◌≤◌, ◌+◌, [], drop, false, length, IfOk};
ghost use Rattle.up_http.specs.Requests.{First, Requests};

use crate::asked::{Next, Step};
use crate::feeder::Feeder;
use std::alloc::{AllocError, Global};

/// The requests of an input, in order, to the last that is answered. So each input has requests, if there is memory
/// for them.
pub fn requests_of(alloc: Global, bytes: &[u8]) -> Result<Vec<Next>, AllocError>
    ensures { IfOk result (λ nexts. Requests bytes.now nexts.items) }
{
    let mut feeder = Feeder::new(alloc);
    let mut nexts = Vec::new(alloc);
    let mut at = 0;
    while at < bytes.len() {
        let (next, taken) = first_of(&mut feeder, &bytes[at..])?;
        let last = next.last;
        nexts.push(next)?;
        at += taken;
        if last {
            return Ok(nexts);
        }
    }
    Ok(nexts)
}

/// The first request of what is left of an input, and how many bytes it takes.
fn first_of(feeder: &mut Feeder, bytes: &[u8]) -> Result<(Next, usize), AllocError>
    requires fresh { feeder.old.rest ≡ [] }
    requires open { feeder.old.ended ≡ false }
    requires some { 0 < length bytes.now }
    ensures first { IfOk result (λ found. First feeder.old.given bytes.now found.0 (drop found.1 bytes.now)) }
    ensures taken { IfOk result (λ found. (0 < found.1) × (found.1 ≤ length bytes.now)) }
    ensures fed { IfOk result
        (λ found. feeder.new ≡ record { rest = []; given = feeder.old.given + 1; ended = found.0.last }) }
{
    let Step { taken, next } = feeder.feed(bytes)?;
    match next {
        Some(next) => Ok((next, taken)),
        None => {
            let next = feeder.end().unwrap();
            Ok((next, bytes.len()))
        }
    }
}
