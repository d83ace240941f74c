//! Ed25519 (RFC 8032, section 5.1) as a scheme of signatures.
//!
//! `scheme` is what the rest of the product names, and `cached_scheme` what a program takes that verifies many signatures of the
//! same keys; `shows` reads a key back from a Root. `signing` makes public keys and signatures, `verification` checks them, and
//! `public_keys` says which bytes are a public key.
#![tactic(auto)]

pub mod cached_scheme;
pub mod public_keys;
pub mod ready_key;
pub mod ready_keys;
pub mod scheme;
pub mod shows;
pub mod signer_keys;
pub mod signing;
pub mod verification;
