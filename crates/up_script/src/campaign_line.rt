//! Lines that open a campaign.
ghost use Rattle.std.specs.Prelude.{IfOk, IsTrue};
ghost use Rattle.up_canon.specs.Members.{object_of_map};
ghost use Rattle.up_canon.specs.Refusals.{Gives};
ghost use Rattle.up_script.specs.CampaignLines.{campaign_in, reach_in};

use serde_json::{Map, Value};
use std::alloc::Global;
use up_canon::each::each_of;
use up_canon::fields::{list_at, member_at};
use up_canon::readers::ident_at;
use up_canon::refusal::Refusal;
use up_columns::campaigns::{ItemReading, reach_of};
use up_plan::campaign::{Campaign, Reach};

/// The running campaign that a line opens, or the first fault of its members.
#[tactic(auto, unfolding(crate::specs::CampaignLines::campaign_in, up_canon::specs::Steps::and_then))]
pub fn campaign_at(alloc: Global, line: &Map<String, Value>) -> Result<Campaign, Refusal>
    ensures value { Gives result (campaign_in (object_of_map line.now.entries)) }
    ensures running { IfOk result (λ campaign. IsTrue campaign.running) }
{
    let name = ident_at(alloc, line, "campaign")?;
    let reach = reach_at(alloc, line)?;
    let items = each_of::<ItemReading>(alloc, list_at(line, "items")?.as_slice(), "items")?;
    Ok(Campaign::new(name, reach, items.into_vec())?)
}

#[tactic(auto, unfolding(crate::specs::CampaignLines::reach_in, up_canon::specs::Steps::and_then))]
fn reach_at(alloc: Global, line: &Map<String, Value>) -> Result<Reach, Refusal>
    ensures { Gives result (reach_in (object_of_map line.now.entries)) }
{
    reach_of(alloc, member_at(line, "vehicles")?, "vehicles")
}
