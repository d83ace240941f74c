//! Envelopes and key identifiers.
use crate::texts::values::hex_digits;
use serde_json::{Map, Value};
use std::alloc::{AllocError, Global};
use up_canon::fields::count_at;
use up_canon::hex_text::hex_of;
use up_canon::listed::Duplicate;
use up_sign::envelope::{Envelope, Signature};
use up_sign::envelope_read::{open, read_envelope};
use up_sign::key_id::{key_id, key_id_text};

/// The signatures and the signed text of an envelope.
pub(crate) fn envelope_of(alloc: Global, value: &Value) -> Result<String, AllocError> {
    match read_envelope(alloc, value) {
        Ok(envelope) => envelope_fields(alloc, &envelope.copy(alloc)?),
        Err(refusal) => refusal.text(alloc),
    }
}

fn envelope_fields(alloc: Global, envelope: &Envelope) -> Result<String, AllocError> {
    let mut out = String::new(alloc);
    for signature in envelope.signatures.as_slice() {
        push_signature(alloc, &mut out, signature)?;
    }
    out.push_str(envelope.signed.as_str())?;
    Ok(out)
}

fn push_signature(
    alloc: Global,
    out: &mut String,
    signature: &Signature,
) -> Result<(), AllocError> {
    let sig = hex_digits(alloc, signature.sig.as_slice())?;
    let (keyid, method) = (signature.keyid.as_str(), signature.method.as_str());
    let line = format!(in alloc; "{keyid} by {method}: {sig}; ")?;
    out.push_str(line.as_str())
}

/// The signed text of an envelope, and the count `b` of its payload.
pub(crate) fn opened(alloc: Global, value: &Value) -> Result<String, AllocError> {
    match open(alloc, value, "report") {
        Ok((envelope, payload)) => opened_fields(alloc, envelope.signed.as_str(), payload),
        Err(refusal) => refusal.text(alloc),
    }
}

fn opened_fields(
    alloc: Global,
    signed: &str,
    payload: &Map<String, Value>,
) -> Result<String, AllocError> {
    match count_at(payload, "b") {
        Ok(count) => format!(in alloc; "{signed} {}", count.get()),
        Err(name) => name.to_string(alloc),
    }
}

/// The identifier of a public part, which is given in hex: its bytes in hex, and its text.
pub(crate) fn key_identifier(alloc: Global, value: &Value) -> Result<String, AllocError> {
    match hex_of(alloc, value, "public", 0, 1024) {
        Ok(public) => identifier_of(alloc, public.as_slice()),
        Err(refusal) => refusal.text(alloc),
    }
}

fn identifier_of(alloc: Global, public: &[u8]) -> Result<String, AllocError> {
    let digits = hex_digits(alloc, &key_id(public)[..])?;
    let text = key_id_text(alloc, public)?;
    format!(in alloc; "{digits}, as text {}", text.as_str())
}
