//! Members that may be left out.
ghost use Rattle.std.specs.Prelude.{◌≡◌, Ok, MatchResult, codes};
ghost use Rattle.up_canon.specs.Members.{IsFault, object_of_map, values_of};
ghost use Rattle.up_script.specs.ImageLines.{optional_list_in, optional_sha512_in};

use serde_json::{Map, Value};
use up_canon::fields::find;
use up_canon::hex_text::sha512_of;
use up_canon::kinds::list_of;

/// The values of a list, none where it is left out, or its name.
#[tactic(auto, unfolding(crate::specs::ImageLines::optional_list_in))]
pub fn optional_list_at<'a>(
    map: &'a Map<String, Value>,
    name: &'static str,
) -> Result<&'a [Value], &'static str>
    ensures { MatchResult result
        (λ list. optional_list_in name.now (object_of_map map.now.entries) ≡ Ok (values_of list.now))
        (λ fault. IsFault (optional_list_in name.now (object_of_map map.now.entries)) name.now fault.now) }
{
    match find(map, name) {
        Some(value) => Ok(list_of(value, name)?.as_slice()),
        None => Ok(&[]),
    }
}

/// The SHA-512 of the member `sha512`, none where it is left out, or its name where it isn't 128 hexadecimal digits.
#[tactic(auto, unfolding(crate::specs::ImageLines::optional_sha512_in, up_canon::specs::Steps::and_then))]
pub fn optional_sha512_at(map: &Map<String, Value>) -> Result<Option<[u8; 64]>, &'static str>
    ensures { MatchResult result
        (λ hash. optional_sha512_in (object_of_map map.now.entries) ≡ Ok hash)
        (λ fault. IsFault (optional_sha512_in (object_of_map map.now.entries)) (codes "sha512") fault.now) }
{
    match find(map, "sha512") {
        Some(value) => Ok(Some(sha512_of(value, "sha512")?)),
        None => Ok(None),
    }
}
