//! Lines of scripts in a short spelling: ' stands for ", and words in <> for keys, ECUs, reports and digests.
use std::alloc::{AllocError, Global};
use up_sign::scheme::Scheme;

/// The line in full.
pub(crate) fn in_full<K: Scheme>(
    alloc: Global,
    scheme: &K,
    line: &str,
) -> Result<String, AllocError> {
    let mut out = String::new(alloc);
    for piece in line.split('<') {
        push_piece(&mut out, alloc, scheme, piece)?;
    }
    out.as_str().replace(alloc, "'", "\"")
}

/// Appends a piece of a line. Each but the first begins with a word that `>` ends.
fn push_piece<K: Scheme>(
    out: &mut String,
    alloc: Global,
    scheme: &K,
    piece: &str,
) -> Result<(), AllocError> {
    let Some((word, rest)) = piece.split_once('>') else {
        return out.push_str(piece);
    };
    let meant = meaning(alloc, scheme, word)?;
    out.push_str(meant.as_str())?;
    out.push_str(rest)
}

/// What a word stands for.
fn meaning<K: Scheme>(alloc: Global, scheme: &K, word: &str) -> Result<String, AllocError> {
    let words: Vec<&str> = word.split(' ').collect(alloc)?;
    match words.as_slice() {
        ["secret", byte] => secret(alloc, byte),
        ["public", byte] => public(alloc, scheme, byte),
        ["role", byte] => role(alloc, byte),
        ["ecu", ecu, hardware, byte] => new_ecu(alloc, scheme, ecu, hardware, byte),
        ["report", ecu, byte, counter, file] => report(alloc, ecu, byte, counter, file, "empty"),
        ["report", ecu, byte, counter, file, content] => {
            report(alloc, ecu, byte, counter, file, content)
        }
        ["empty"] => digest_of_nothing().to_string(alloc),
        ["abc"] => digest_of_abc().to_string(alloc),
        ["second", content] => second_hash(content).to_string(alloc),
        _ => format!(in alloc; "no word {word}"),
    }
}

/// The SHA-256 of no bytes.
fn digest_of_nothing() -> &'static str {
    "e3b0c44298fc1c149afbf4c8996fb92427ae41e4649b934ca495991b7852b855"
}

/// The SHA-256 of `abc`, of FIPS 180-4.
fn digest_of_abc() -> &'static str {
    "ba7816bf8f01cfea414140de5dae2223b00361a396177a9cb410ff61f20015ad"
}

/// The SHA-512 of no bytes, or of `abc`, of FIPS 180-4.
fn second_hash(content: &str) -> &'static str {
    match content {
        "empty" => {
            "cf83e1357eefb8bdf1542850d66d8007d620e4050b5715dc83f4a921d36ce9ce47d0d13c5d85f2b0ff8318d2877eec2f63b931bd47417a81a538327af927da3e"
        }
        _ => {
            "ddaf35a193617abacc417349ae20413112e6fa4e89a97ea20a9eeee64b55d39a2192992a274fc1a836ba3c23a3feebbd454d4423643ce80e2a9ac94fa54ca49f"
        }
    }
}

/// A key of 32 times the byte, in hex; no hex where it is no byte.
fn secret(alloc: Global, byte: &str) -> Result<String, AllocError> {
    match byte.parse::<u8>() {
        Ok(byte) => hex::encode(alloc, [byte; 32]),
        Err(_) => "no byte".to_string(alloc),
    }
}

/// The public part of a key of 32 times the byte, in hex.
fn public<K: Scheme>(alloc: Global, scheme: &K, byte: &str) -> Result<String, AllocError> {
    match byte.parse::<u8>() {
        Ok(byte) => public_of(alloc, scheme, [byte; 32]),
        Err(_) => "no byte".to_string(alloc),
    }
}

fn public_of<K: Scheme>(alloc: Global, scheme: &K, key: [u8; 32]) -> Result<String, AllocError> {
    let public = scheme.public(alloc, &key[..])?;
    hex::encode(alloc, public.as_slice())
}

/// A role with one key.
fn role(alloc: Global, byte: &str) -> Result<String, AllocError> {
    let secret = secret(alloc, byte)?;
    format!(in alloc; "{{'keys':['{secret}'],'threshold':1}}")
}

/// A new vehicle's ECU, with the public part of its key.
fn new_ecu<K: Scheme>(
    alloc: Global,
    scheme: &K,
    ecu: &str,
    hardware: &str,
    byte: &str,
) -> Result<String, AllocError> {
    let public = public(alloc, scheme, byte)?;
    format!(in alloc; "{{'ecu':'{ecu}','hardware':'{hardware}','key':'{public}'}}")
}

/// A report of an image of that content: `empty` or `abc`; `both`, which is `abc` with a second hash; or `unlike`, which is `abc`
/// with that of the empty text.
fn report(
    alloc: Global,
    ecu: &str,
    byte: &str,
    counter: &str,
    file: &str,
    content: &str,
) -> Result<String, AllocError> {
    let secret = secret(alloc, byte)?;
    let image = image(alloc, content)?;
    format!(in alloc;
        "{{'counter':{counter},'ecu':'{ecu}','file':'{file}','key':'{secret}',{image},'time':1767225600}}"
    )
}

/// The length and the hashes of a content.
fn image(alloc: Global, content: &str) -> Result<String, AllocError> {
    let (empty, abc) = (digest_of_nothing(), digest_of_abc());
    match content {
        "empty" => format!(in alloc; "'length':0,'sha256':'{empty}'"),
        "both" => format!(in alloc;
            "'length':3,'sha256':'{abc}','sha512':'{}'",
            second_hash("abc")
        ),
        "unlike" => format!(in alloc;
            "'length':3,'sha256':'{abc}','sha512':'{}'",
            second_hash("empty")
        ),
        _ => format!(in alloc; "'length':3,'sha256':'{abc}'"),
    }
}
