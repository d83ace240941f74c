//! What the bytes of a file mean.
ghost use Rattle.std.specs.Prelude.{◌≡◌, ◌<◌, Err, length};
ghost use Rattle.up_canon.specs.Refusals.{Gives};
ghost use Rattle.up_canon.specs.declared.refusal.Refusal.TheVariants.{TooLarge};
ghost use Rattle.up_roles.specs.Payload.{largest_file, file_in};

use serde_json::{Map, Value};
use std::alloc::Global;
use up_canon::json_text::value_within;
use up_canon::refusal::Refusal;
use up_sign::envelope::Envelope;
use up_sign::envelope_read::open;

/// The most bytes that a file may have.
const LARGEST_FILE: usize = 4194304;

/// What a payload of a role means.
pub(crate) trait RoleFile: Drop {
    ghost use Rattle.std.specs.Prelude.{Result};
    ghost use Rattle.serde_json.specs.Data.{Data};
    ghost use Rattle.up_canon.specs.Members.{object_of_map};
    ghost use Rattle.up_canon.specs.Refusals.{Gives};
    ghost use Rattle.up_canon.specs.declared.refusal.Refusal.{Refusal};

    /// The file, or the first fault.
    ghost meaning: { Data → Result Self Refusal };

    /// Reads it.
    fn of_payload(alloc: Global, map: &Map<String, Value>) -> Result<Self, Refusal>
        ensures { Gives result (meaning (object_of_map map.now.entries)) };
}

/// The file that the bytes mean, and its envelope.
#[tactic(auto, unfolding(crate::specs::Payload::file_in, up_canon::specs::Steps::and_then))]
pub(crate) fn read_file<F: RoleFile>(alloc: Global, bytes: &[u8]) -> Result<(F, Envelope), Refusal>
    ensures value { Gives result (file_in F.meaning bytes.now) }
    ensures large { largest_file < length bytes.now → result ≡ Err TooLarge }
{
    let value = value_within(alloc, bytes, LARGEST_FILE)?;
    let (envelope, payload) = open(alloc, &value, "body")?;
    let file = F::of_payload(alloc, payload)?;
    Ok((file, envelope))
}
