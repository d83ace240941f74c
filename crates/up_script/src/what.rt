//! What each word of a line asks.
ghost use Rattle.std.specs.Prelude.{◌≡◌, Err, IfErr, IfOk, IsTrue, codes};
ghost use Rattle.up_canon.specs.Members.{object_of_map, text_in};
ghost use Rattle.up_canon.specs.Refusals.{Gives};
ghost use Rattle.up_roles.specs.Payload.{repository_in};
ghost use Rattle.up_script.specs.AskedLines.{what_in, deliver_in, fetch_in, asks_running};

use crate::asked::What;
use crate::bench_line::bench_at;
use crate::campaign_line::campaign_at;
use crate::image_line::image_at;
use crate::key_line::key_set_at;
use crate::vehicle_line::{replacement_at, vehicle_at};
use crate::word::Word;
use serde_json::{Map, Value};
use std::alloc::Global;
use up_canon::bytes::Bytes;
use up_canon::fields::{count_at, text_at};
use up_canon::readers::{file_name_at, ident_at};
use up_canon::refusal::Refusal;
use up_machine::command::Command;
use up_roles::payload::repository_at;
use up_sign::scheme::Scheme;

/// What a line of this word asks, or the first fault of the word's members.
#[tactic(auto, unfolding(crate::specs::AskedLines::show_in, up_canon::specs::Steps::and_then))]
pub(crate) fn what_at<K: Scheme>(
    alloc: Global,
    scheme: &K,
    word: Word,
    line: &Map<String, Value>,
) -> Result<What, Refusal>
    ensures value { Gives result (what_in (K.rules scheme.now) word (object_of_map line.now.entries)) }
    ensures running { IfOk result (λ what. IsTrue (asks_running what)) }
{
    match word {
        Word::Found => Ok(What::Call(Command::Found(key_set_at(alloc, line)?))),
        Word::Rotate => Ok(What::Call(Command::Rotate(key_set_at(alloc, line)?))),
        Word::AddVehicle => Ok(What::Call(Command::AddVehicle(vehicle_at(alloc, line)?))),
        Word::ReplaceEcu => Ok(What::Call(Command::ReplaceEcu(replacement_at(alloc, line)?))),
        Word::AddImage => Ok(What::Call(Command::AddImage(image_at(alloc, line)?))),
        Word::Refresh => Ok(What::Call(Command::Refresh(count_at(line, "version")?))),
        Word::OpenCampaign => Ok(What::Call(Command::OpenCampaign(campaign_at(alloc, line)?))),
        Word::CloseCampaign => {
            let name = ident_at(alloc, line, "campaign")?;
            Ok(What::Call(Command::CloseCampaign(name)))
        }
        Word::Deliver => delivery_at(alloc, line),
        Word::Fetch => fetch_at(alloc, line),
        Word::Bench => Ok(What::Call(Command::Deliver(bench_at(alloc, scheme, line)?))),
        Word::Show => Ok(What::Show(ident_at(alloc, line, "vehicle")?)),
    }
}

#[tactic(auto, unfolding(crate::specs::AskedLines::deliver_in, up_canon::specs::Steps::and_then))]
fn delivery_at(alloc: Global, line: &Map<String, Value>) -> Result<What, Refusal>
    ensures value { Gives result (deliver_in (object_of_map line.now.entries)) }
    ensures running { IfOk result (λ what. IsTrue (asks_running what)) }
    ensures outright { IfErr (text_in (codes "body") (object_of_map line.now.entries)) (λ r. result ≡ Err r) }
{
    let body = text_at(line, "body")?.as_bytes().to_vec(alloc)?;
    Ok(What::Call(Command::Deliver(Bytes::new(body))))
}

#[tactic(auto, unfolding(crate::specs::AskedLines::fetch_in, up_canon::specs::Steps::and_then))]
fn fetch_at(alloc: Global, line: &Map<String, Value>) -> Result<What, Refusal>
    ensures value { Gives result (fetch_in (object_of_map line.now.entries)) }
    ensures running { IfOk result (λ what. IsTrue (asks_running what)) }
    ensures outright { IfErr (repository_in (object_of_map line.now.entries)) (λ r. result ≡ Err r) }
{
    let repository = repository_at(line)?;
    let file = file_name_at(alloc, line, "file")?;
    Ok(What::Call(Command::Fetch(repository, file)))
}
