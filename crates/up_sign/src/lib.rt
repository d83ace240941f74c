//! Schemes of signatures, HMAC over SHA-256, envelopes and thresholds.
#![tactic(auto)]

pub mod envelope;
pub mod envelope_read;
pub mod hmac_sha256;
pub mod key_cache;
pub mod key_id;
pub mod laws;
pub mod scheme;
pub mod seal;
pub mod threshold;
mod writing;
