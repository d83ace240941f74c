//! The reach and the items of a campaign.
ghost use Rattle.std.specs.Prelude.{◌≡◌, List, Ok, Err, IfOk, IfErr, OnOk, string_bytes, true, false};
ghost use Rattle.std.specs.List.{list_all};
ghost use Rattle.serde_json.specs.View.{view};
ghost use Rattle.up_canon.specs.Members.{list_of as list_of_value};
ghost use Rattle.up_canon.specs.Refusals.{Gives};
ghost use Rattle.up_columns.specs.CampaignColumns.{reach_data, reach_column, is_all as is_all_word, named_of, reach_of as reach_of_value, reach_in, items_column, campaign_items_in};
ghost use Rattle.up_columns.specs.Typed.{is_typed_item, is_typed_reach};
ghost use Rattle.up_plan.specs.declared.campaign.Item.{Item as ItemData};
ghost use Rattle.up_plan.specs.declared.campaign.Reach.{Reach as ReachData};
ghost use Rattle.up_plan.specs.declared.campaign.Reach.TheVariants.{All};

use crate::lists::{ToValue, list_value, read_items};
use crate::values::column_value;
use serde_json::{Value, json};
use std::alloc::{AllocError, Global};
use up_canon::canonical::canonical_text;
use up_canon::canonical_laws;
use up_canon::each::{Reading, each_of};
use up_canon::kinds::{list_of, object_of};
use up_canon::listed::Listed;
use up_canon::name_readings::IdentReading;
use up_canon::readers::{file_name_at, ident_at};
use up_canon::refusal::Refusal;
use up_plan::campaign::{Item, Reach};

/// Items of a campaign, `{"file","hardware"}`; the list's name is the fault of what is no object.
pub struct ItemReading;

impl Reading for ItemReading {
    ghost use Rattle.up_columns.specs.CampaignColumns.{item_of};

    type Item = Item;

    ghost meaning = { item_of };

    #[tactic(auto, unfolding(crate::specs::CampaignColumns::item_of, up_canon::specs::Steps::and_then))]
    fn read(alloc: Global, value: &Value, place: &'static str) -> Result<Item, Refusal> {
        let item = object_of(value, place)?;
        let hardware = ident_at(alloc, item, "hardware")?;
        let file = file_name_at(alloc, item, "file")?;
        Ok(Item { hardware, file })
    }
}

impl ToValue for Item {
    ghost use Rattle.up_columns.specs.CampaignColumns.{item_data};
    ghost use Rattle.up_columns.specs.Typed.{is_typed_item};

    ghost data_of = { item_data };

    ghost is_typed = { is_typed_item };

    fn value(&self, alloc: Global) -> Result<Value, AllocError> {
        json!(in alloc; {"file": self.file.text(), "hardware": self.hardware.text()})
    }
}

/// The column of a list of items.
#[tactic(auto, unfolding(crate::specs::CampaignColumns::items_column))]
pub fn items_text(alloc: Global, items: &[Item]) -> Result<String, AllocError>
    ensures column { IfOk result (λ t. string_bytes t ≡ items_column items.now) }
    ensures typed { OnOk result (list_all is_typed_item items.now ≡ true) }
{
    let value = list_value(alloc, items)?;
    canonical_text(alloc, &value)
}

/// The items of a column: `Memory`, or the first fault of a text that can't be read as a list of items.
pub fn read_campaign_items(alloc: Global, column: &str) -> Result<Listed<Item>, Refusal>
    ensures read { Gives result (campaign_items_in column.now) }
    ensures again { (items : List ItemData) → list_all is_typed_item items ≡ true → column.now ≡ items_column items
        → Gives result (Ok items) }
{
    canonical_laws();
    read_items::<ItemReading>(alloc, column, "items")
}

/// The column of a reach.
#[tactic(auto, unfolding(crate::specs::CampaignColumns::reach_column))]
pub fn reach_text(alloc: Global, reach: &Reach) -> Result<String, AllocError>
    ensures column { IfOk result (λ t. string_bytes t ≡ reach_column reach.now) }
    ensures typed { OnOk result (is_typed_reach reach.now ≡ true) }
{
    let value = reach_value(alloc, reach)?;
    canonical_text(alloc, &value)
}

fn reach_value(alloc: Global, reach: &Reach) -> Result<Value, AllocError>
    ensures value { IfOk result (λ v. view v ≡ reach_data reach.now) }
    ensures typed { OnOk result (is_typed_reach reach.now ≡ true) }
{
    match reach {
        Reach::All => Value::try_from_str(alloc, "all"),
        Reach::Named(vehicles) => list_value(alloc, vehicles.as_slice()),
    }
}

/// The reach of a column: `Memory`, or the first fault of a text that can't be read as a reach.
pub fn read_reach(alloc: Global, column: &str) -> Result<Reach, Refusal>
    ensures read { Gives result (reach_in column.now) }
    ensures again { (reach : ReachData) → is_typed_reach reach ≡ true → column.now ≡ reach_column reach
        → Gives result (Ok reach) }
{
    canonical_laws();
    reach_in_column(alloc, column)
}

#[tactic(auto, unfolding(crate::specs::CampaignColumns::reach_in, up_canon::specs::Steps::and_then))]
fn reach_in_column(alloc: Global, column: &str) -> Result<Reach, Refusal>
    ensures { Gives result (reach_in column.now) }
{
    let value = column_value(alloc, column)?;
    reach_of(alloc, &value, "vehicles")
}

/// The reach that the value is, `"all"` or a list of vehicles; the name is that of the fault.
#[tactic(auto, unfolding(crate::specs::CampaignColumns::reach_of))]
pub fn reach_of(alloc: Global, value: &Value, name: &'static str) -> Result<Reach, Refusal>
    ensures reach { Gives result (reach_of_value name.now (view value.now)) }
    ensures all { is_all_word (view value.now) ≡ true → result ≡ Ok All }
    ensures list { is_all_word (view value.now) ≡ false
        → IfErr (list_of_value name.now (view value.now)) (λ r. result ≡ Err r) }
{
    if is_all(value) {
        Ok(Reach::All)
    } else {
        named(alloc, value, name)
    }
}

#[tactic(auto, unfolding(crate::specs::CampaignColumns::named_of, up_canon::specs::Steps::and_then))]
fn named(alloc: Global, value: &Value, name: &'static str) -> Result<Reach, Refusal>
    ensures reach { Gives result (named_of name.now (view value.now)) }
    ensures list { IfErr (list_of_value name.now (view value.now)) (λ r. result ≡ Err r) }
{
    let values = list_of(value, name)?;
    let vehicles = each_of::<IdentReading>(alloc, values.as_slice(), name)?;
    Ok(Reach::Named(vehicles))
}

fn is_all(value: &Value) -> bool
    ensures { result ≡ is_all_word (view value.now) }
{
    match value.as_str() {
        Some(text) => text == "all",
        None => false,
    }
}
