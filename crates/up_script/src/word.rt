//! The word of a line, which says what the line asks for.
ghost use Rattle.std.specs.Prelude.{◌≡◌, Ok, MatchResult, codes};
ghost use Rattle.up_canon.specs.Members.{IsFault, object_of_map};
ghost use Rattle.up_script.specs.Words.{word_in, word_of as word_of_text};

use serde_json::{Map, Value};
use up_canon::fields::text_at;

/// What a line asks for.
#[derive(Clone, Copy, Debug)]
pub enum Word {
    /// `found`
    Found,
    /// `rotate`
    Rotate,
    /// `add_vehicle`
    AddVehicle,
    /// `replace_ecu`
    ReplaceEcu,
    /// `add_image`
    AddImage,
    /// `refresh`
    Refresh,
    /// `open_campaign`
    OpenCampaign,
    /// `close_campaign`
    CloseCampaign,
    /// `deliver`
    Deliver,
    /// `fetch`
    Fetch,
    /// `bench`
    Bench,
    /// `show`
    Show,
}

/// The word of a line, its member `do`, or that name where it has none.
#[tactic(auto, unfolding(crate::specs::Words::word_in, up_canon::specs::Steps::and_then))]
pub fn word_at(line: &Map<String, Value>) -> Result<Word, &'static str>
    ensures { MatchResult result
        (λ word. word_in (object_of_map line.now.entries) ≡ Ok word)
        (λ fault. IsFault (word_in (object_of_map line.now.entries)) (codes "do") fault.now) }
{
    word_of(text_at(line, "do")?).ok_or("do")
}

fn word_of(text: &str) -> Option<Word>
    ensures { result ≡ word_of_text text.now }
{
    match text {
        "found" => Some(Word::Found),
        "rotate" => Some(Word::Rotate),
        "add_vehicle" => Some(Word::AddVehicle),
        "replace_ecu" => Some(Word::ReplaceEcu),
        "add_image" => Some(Word::AddImage),
        "refresh" => Some(Word::Refresh),
        "open_campaign" => Some(Word::OpenCampaign),
        "close_campaign" => Some(Word::CloseCampaign),
        "deliver" => Some(Word::Deliver),
        "fetch" => Some(Word::Fetch),
        "bench" => Some(Word::Bench),
        "show" => Some(Word::Show),
        _ => None,
    }
}
