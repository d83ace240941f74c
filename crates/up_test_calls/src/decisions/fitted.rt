//! ECUs of a vehicle: `ECU HARDWARE FILE CONTENT` of each, with `;` between.
use sha2::{Digest, Sha256, Sha512};
use std::alloc::{AllocError, Global};
use up_canon::count::Count;
use up_canon::file_name::FileName;
use up_canon::ident::Ident;
use up_manifest::report::Installed;
use up_plan::assigned::Fitted;

/// The ECUs, none where one is spelled wrong.
pub(crate) fn fitted(alloc: Global, text: &str) -> Result<Option<Vec<Fitted>>, AllocError> {
    let mut made = Vec::new(alloc);
    for part in text.split(';') {
        if !part.trim().is_empty() && !push_ecu(alloc, &mut made, part)? {
            return Ok(None);
        }
    }
    Ok(Some(made))
}

fn push_ecu(alloc: Global, made: &mut Vec<Fitted>, part: &str) -> Result<bool, AllocError> {
    match ecu(alloc, part)? {
        Some(ecu) => {
            made.push(ecu)?;
            Ok(true)
        }
        None => Ok(false),
    }
}

fn ecu(alloc: Global, part: &str) -> Result<Option<Fitted>, AllocError> {
    let words: Vec<&str> = part.split_whitespace().collect(alloc)?;
    match words.as_slice() {
        [ecu, hardware, file, content] => ecu_of(
            Ident::new(ecu.to_string(alloc)?),
            Ident::new(hardware.to_string(alloc)?),
            installed(FileName::new(file.to_string(alloc)?), content),
        ),
        _ => Ok(None),
    }
}

fn ecu_of(
    ecu: Option<Ident>,
    hardware: Option<Ident>,
    image: Option<Installed>,
) -> Result<Option<Fitted>, AllocError> {
    match (ecu, hardware, image) {
        (Some(ecu), Some(hardware), Some(image)) => Ok(Some(Fitted {
            ecu,
            hardware,
            image,
        })),
        _ => Ok(None),
    }
}

/// An image of that content: `empty`, `abc`, or one of them with the other's length; `both`, which is `abc` with a second hash; or
/// `unlike`, which is `abc` with that of the empty text.
fn installed(file: Option<FileName>, content: &str) -> Option<Installed> {
    let (length, text) = match content {
        "empty" => (0, ""),
        "abc" => (3, "abc"),
        "longer" => (1, ""),
        "other" => (0, "abc"),
        "both" | "unlike" => (3, "abc"),
        _ => return None,
    };
    match (file, Count::new(length)) {
        (Some(file), Some(length)) => Some(Installed {
            file,
            length,
            sha256: Sha256::digest(text.as_bytes()),
            sha512: second_hash(content),
        }),
        _ => None,
    }
}

fn second_hash(content: &str) -> Option<[u8; 64]> {
    match content {
        "both" => Some(Sha512::digest("abc".as_bytes())),
        "unlike" => Some(Sha512::digest("".as_bytes())),
        _ => None,
    }
}
