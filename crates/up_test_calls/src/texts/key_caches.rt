//! Keys that are kept hashed.
use serde_json::Value;
use std::alloc::{AllocError, Global};
use up_canon::hex_text::hex_of;
use up_sign::key_cache::KeyCache;

/// Keeps the keys of public parts, which are given in hex, in their order, and tells of each whether it is found then: its
/// identifier, or `none`.
pub(crate) fn keys_kept(alloc: Global, value: &Value) -> Result<String, AllocError> {
    match value.as_array() {
        Some(publics) => kept_in_turn(alloc, publics.as_slice()),
        None => "no public parts".to_string(alloc),
    }
}

fn kept_in_turn(alloc: Global, publics: &[Value]) -> Result<String, AllocError> {
    let mut keys = KeyCache::new();
    for public in publics {
        keep(alloc, &mut keys, public)?;
    }
    told(alloc, &keys, publics)
}

fn told(alloc: Global, keys: &KeyCache, publics: &[Value]) -> Result<String, AllocError> {
    let mut out = String::new(alloc);
    let mut separator = "";
    for public in publics {
        out.push_str(separator)?;
        push_found(alloc, &mut out, keys, public)?;
        separator = "; ";
    }
    Ok(out)
}

fn keep(alloc: Global, keys: &mut KeyCache, public: &Value) -> Result<(), AllocError> {
    match hex_of(alloc, public, "public", 0, 1024) {
        Ok(public) => keys.keep(alloc, public.as_slice()),
        Err(_) => Ok(()),
    }
}

fn push_found(
    alloc: Global,
    out: &mut String,
    keys: &KeyCache,
    public: &Value,
) -> Result<(), AllocError> {
    match hex_of(alloc, public, "public", 0, 1024) {
        Ok(public) => push_key(alloc, out, keys, public.as_slice()),
        Err(_) => out.push_str("no hex"),
    }
}

fn push_key(
    alloc: Global,
    out: &mut String,
    keys: &KeyCache,
    public: &[u8],
) -> Result<(), AllocError> {
    match keys.find(public) {
        Some(key) => {
            let id = key.id(alloc)?;
            out.push_str(id.as_str())
        }
        None => out.push_str("none"),
    }
}
