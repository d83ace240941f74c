//! The Director's reply: its members, and the text of each file in it as it stands.
ghost use Rattle.std.specs.Prelude.{◌≡◌, IfOk, IfSome};
ghost use Rattle.serde_json.specs.View.{view};
ghost use Rattle.up_canon.specs.Members.{object_of_map};
ghost use Rattle.up_canon.specs.Refusals.{Gives};
ghost use Rattle.up_primary_files.specs.Served.{StandsIn, AllStandIn, names_of, IsReplyOf, IsReply};

use serde_json::{Map, Value};
use std::alloc::{AllocError, Global};
use std::str;
use up_canon::fields::count_at;
use up_canon::ident::Ident;
use up_canon::json_text::value_within;
use up_canon::kinds::object_of;
use up_canon::readers::ident_at;
use up_canon::refusal::Refusal;
use up_canon::text::Text;
use up_metadata::role_files::RoleTexts;
use up_verify::served::Reply;

/// The most bytes of a reply.
const MOST: usize = 4_194_304;

/// The reply that a text is: `TooLarge` above 4,194,304 bytes, `NotJson`, `BadShape` with the name of the first member at
/// fault, `Memory`. Of a member that stands twice the last counts.
pub(crate) fn read_reply(alloc: Global, text: &str) -> Result<Reply, Refusal>
    ensures { IfOk result (IsReply text.now) }
{
    let value = value_within(alloc, text.as_bytes(), MOST)?;
    let read = reply_in(alloc, text, &value);
    // Dropped by name: at the end of a scope it would be proved part by part.
    drop(value);
    read
}

fn reply_in(alloc: Global, text: &str, value: &Value) -> Result<Reply, Refusal>
    ensures { IfOk result (IsReplyOf text.now (view value.now)) }
{
    let map = object_of(value, "reply")?;
    let files = files_in(alloc, text)?;
    match names_at(alloc, map) {
        Ok(
            Names {
                root,
                vehicle,
                version,
            },
        ) => Ok(Reply {
            root,
            vehicle,
            version,
            files,
        }),
        Err(refusal) => {
            drop(files);
            Err(refusal)
        }
    }
}

/// A reply's root version, vehicle, and the vehicle's version.
#[derive(Drop)]
pub struct Names {
    pub root: u64,
    pub vehicle: Ident,
    pub version: u64,
}

#[tactic(auto, unfolding(crate::specs::Served::names_of, up_canon::specs::Steps::and_then))]
fn names_at(alloc: Global, map: &Map<String, Value>) -> Result<Names, Refusal>
    ensures { Gives result (names_of (object_of_map map.now.entries)) }
{
    Ok(Names {
        root: count_at(map, "root")?.get(),
        version: count_at(map, "version")?.get(),
        vehicle: ident_at(alloc, map, "vehicle")?,
    })
}

/// The texts of the three files, each as it stands in the reply.
fn files_in(alloc: Global, text: &str) -> Result<RoleTexts, Refusal>
    ensures { IfOk result (AllStandIn text.now) }
{
    let marks = marks(alloc, text.as_bytes())?;
    let read = texts_at(alloc, text, marks.as_slice());
    drop(marks);
    read
}

fn texts_at(alloc: Global, text: &str, marks: &[usize]) -> Result<RoleTexts, Refusal>
    ensures { IfOk result (AllStandIn text.now) }
{
    Ok(RoleTexts {
        targets: member_text(alloc, text, marks, "targets")?,
        snapshot: member_text(alloc, text, marks, "snapshot")?,
        timestamp: member_text(alloc, text, marks, "timestamp")?,
    })
}

/// Where a text of JSON is read: how many lists and objects stand round it, and whether it is in a string, behind a backslash.
#[derive(Clone, Copy)]
struct Place {
    depth: u32,
    quoted: bool,
    escaped: bool,
}

impl Place {
    /// Whether the next byte begins, parts or ends members of the outermost object.
    fn is_mark(self, byte: u8) -> bool {
        if self.quoted {
            return false;
        }
        match byte {
            b'{' => self.depth == 0,
            b':' | b',' | b'}' => self.depth == 1,
            _ => false,
        }
    }

    /// Behind the next byte.
    fn behind(self, byte: u8) -> Place {
        if self.quoted {
            return Place {
                depth: self.depth,
                quoted: self.escaped || byte != b'"',
                escaped: !self.escaped && byte == b'\\',
            };
        }
        let depth = match byte {
            b'{' | b'[' => self.depth.saturating_add(1),
            b'}' | b']' => self.depth.saturating_sub(1),
            _ => self.depth,
        };
        Place {
            depth,
            quoted: byte == b'"',
            escaped: false,
        }
    }
}

/// Where the members of the outermost object of a text begin, are parted and end: the places of its `{`, `:`, `,` and `}`.
fn marks(alloc: Global, bytes: &[u8]) -> Result<Vec<usize>, AllocError> {
    let mut marks = Vec::new(alloc);
    let mut place = Place {
        depth: 0,
        quoted: false,
        escaped: false,
    };
    for (at, byte) in bytes.iter().enumerate() {
        if place.is_mark(*byte) {
            marks.push(at)?;
        }
        place = place.behind(*byte);
    }
    Ok(marks)
}

/// The text of the member of this name as it stands, without white space around it.
fn member_text(
    alloc: Global,
    text: &str,
    marks: &[usize],
    name: &'static str,
) -> Result<Text, Refusal>
    ensures { IfOk result (λ found. StandsIn text.now found) }
{
    match last_member(text.as_bytes(), marks, name) {
        Some(found) => Ok(Text::new(found.to_string(alloc)?)),
        None => Err(Refusal::from(name)),
    }
}

fn last_member<'a>(bytes: &'a [u8], marks: &[usize], name: &str) -> Option<&'a str>
    ensures { IfSome result (λ found. StandsIn bytes.now found.now) }
{
    let mut found = None;
    let mut is_name = true;
    for three in marks.windows(3) {
        if let [from, between, to] = three {
            if is_name && is_named(bytes, *from, *between, name) {
                found = piece(bytes, *between, *to);
            }
        }
        is_name = !is_name;
    }
    found
}

/// Whether the member whose name stands between these places has this name.
fn is_named(bytes: &[u8], from: usize, to: usize, name: &str) -> bool {
    match piece(bytes, from, to) {
        Some(quoted) => is_quoted(quoted.as_bytes(), name.as_bytes()),
        None => false,
    }
}

/// Whether a text is this name in quotes.
fn is_quoted(text: &[u8], name: &[u8]) -> bool {
    match text {
        [b'"', inner @ .., b'"'] => inner == name,
        _ => false,
    }
}

/// What stands behind the byte at the first place, up to the second, without white space around it.
fn piece(bytes: &[u8], from: usize, to: usize) -> Option<&str>
    ensures { IfSome result (λ found. StandsIn bytes.now found.now) }
{
    let span = bytes.get(from..to)?;
    let (_, behind) = span.split_first()?;
    trimmed(behind)
}

/// The text without white space around it.
fn trimmed(bytes: &[u8]) -> Option<&str>
    ensures { IfSome result (λ found. StandsIn bytes.now found.now) }
{
    match str::from_utf8(bytes) {
        Ok(text) => Some(text.trim_ascii()),
        Err(_) => None,
    }
}
