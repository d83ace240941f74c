//! What answers the rows of a section.
//!
//! A row is the line of a script in a short spelling (`lines`), `founded` for the founding with keys of the bytes 1 to 8,
//! `respelled LINE` for a manifest with spaces round its commas, `versions ROOT IMAGES`, which sets the versions of the founding's
//! row, `images COUNT`, which registers so many, or `text TEXT`, which is there for a file that is fetched. In a section whose words begin with `plans` it is a line, or `plan ECUS`, or
//! `without campaigns`. What is wanted is given under both schemes where it has digests, ` / ` between them; a `*` ends the front
//! of an answer.
use crate::decisions::answers::answer;
use crate::decisions::files::set_text;
use crate::decisions::lines::in_full;
use crate::decisions::plans::{Planned, planned_answer};
use crate::decisions::register::{Register, set_versions};
use std::alloc::{AllocError, Global};
use up_sign::scheme::Scheme;
use up_test_common::calls::Calls;
use up_test_common::sections::told;

/// The rows that decisions are made over, and what is planned over.
#[derive(Drop)]
struct Decisions<K: Scheme + Drop> {
    scheme: K,
    register: Register,
    planned: Planned,
}

/// What is told of a section under the scheme.
pub(crate) fn told_under<K: Scheme + Drop>(
    alloc: Global,
    scheme: K,
    section: &str,
) -> Result<String, AllocError> {
    let mut decisions = Decisions {
        scheme,
        register: Register::new(alloc),
        planned: Planned::new(alloc),
    };
    told(alloc, &mut decisions, section)
}

impl<K: Scheme + Drop> Calls for Decisions<K> {
    fn answer(&mut self, alloc: Global, call: &str, given: &str) -> Result<String, AllocError> {
        if call.starts_with("plans") {
            planned_answer(alloc, &self.scheme, &mut self.planned, given)
        } else {
            carried_out(alloc, &self.scheme, &mut self.register, given)
        }
    }

    fn is_wanted(&self, had: &str, wanted: &str) -> bool {
        match wanted.split_once(" / ") {
            Some((first, _)) if self.scheme.method() == "hmac-sha256" => had == first,
            Some((_, second)) => had == second,
            None => is_front_or_whole(had, wanted),
        }
    }
}

fn is_front_or_whole(had: &str, wanted: &str) -> bool {
    match wanted.strip_suffix('*') {
        Some(front) => had.starts_with(front),
        None => had == wanted,
    }
}

fn carried_out<K: Scheme>(
    alloc: Global,
    scheme: &K,
    register: &mut Register,
    line: &str,
) -> Result<String, AllocError> {
    match line.split_once(' ') {
        Some(("versions", numbers)) => set_versions_to(alloc, register, numbers),
        Some(("text", text)) => set_text(alloc, register, text),
        Some(("images", count)) => put_images(alloc, scheme, register, count),
        Some(("respelled", line)) => respelled(alloc, scheme, register, line),
        None if line == "founded" => answer_in_full(alloc, scheme, register, founding()),
        _ => answer_in_full(alloc, scheme, register, line),
    }
}

fn answer_in_full<K: Scheme>(
    alloc: Global,
    scheme: &K,
    register: &mut Register,
    line: &str,
) -> Result<String, AllocError> {
    let line = in_full(alloc, scheme, line)?;
    answer(alloc, scheme, register, line.as_str())
}

fn respelled<K: Scheme>(
    alloc: Global,
    scheme: &K,
    register: &mut Register,
    line: &str,
) -> Result<String, AllocError> {
    register.respells = true;
    let answer = answer_in_full(alloc, scheme, register, line);
    register.respells = false;
    answer
}

/// Registers so many images, with no decision on any.
fn put_images<K: Scheme>(
    alloc: Global,
    scheme: &K,
    register: &mut Register,
    count: &str,
) -> Result<String, AllocError> {
    let Ok(number) = count.parse::<u32>() else {
        return "no number".to_string(alloc);
    };
    register.puts_images = true;
    for place in 0..number {
        put_image(alloc, scheme, register, place)?;
    }
    register.puts_images = false;
    format!(in alloc; "{} images", register.images.len())
}

fn put_image<K: Scheme>(
    alloc: Global,
    scheme: &K,
    register: &mut Register,
    place: u32,
) -> Result<(), AllocError> {
    let line = format!(in alloc;
        "{{'at':1767225600,'do':'add_image','file':'{place}.bin','hardware':['HS'],'length':0,'release':1,'sha256':'<empty>'}}"
    )?;
    answer_in_full(alloc, scheme, register, line.as_str())?;
    Ok(())
}

fn set_versions_to(
    alloc: Global,
    register: &mut Register,
    numbers: &str,
) -> Result<String, AllocError> {
    let (root, images) = numbers.split_once(' ').unwrap_or((numbers, ""));
    match (root.parse::<u64>(), images.parse::<u64>()) {
        (Ok(root), Ok(images)) => {
            set_versions(&mut register.founding, root, images);
            "set".to_string(alloc)
        }
        _ => "no numbers".to_string(alloc),
    }
}

fn founding() -> &'static str {
    "{'at':1767225600,'do':'found','director':{'root':<role 1>,'targets':<role 2>,'snapshot':<role 3>,'timestamp':<role 4>},'image':{'root':<role 5>,'targets':<role 6>,'snapshot':<role 7>,'timestamp':<role 8>}}"
}
