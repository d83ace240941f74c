//! The calls by their words. What is given is words of hex; a message has an `x` before it, since it may be empty.
use crate::keys::{bytes_of, hex_digits, three};
use std::alloc::{AllocError, Global};
use up_ed25519::signing::{public_of, sign_with};
use up_sign::scheme::Scheme;
use up_test_common::calls::Calls;

/// The calls of one of the crate's schemes, with the keys that it keeps.
#[derive(Drop)]
pub(crate) struct Calls25519<K: Scheme + Drop> {
    pub(crate) scheme: K,
}

impl<K: Scheme + Drop> Calls for Calls25519<K> {
    fn answer(&mut self, alloc: Global, call: &str, given: &str) -> Result<String, AllocError> {
        match call {
            "key" => key(alloc, &self.scheme, given),
            "signature" => signature(alloc, &self.scheme, given),
            "verified" => verified(alloc, &self.scheme, given),
            _ => "no such call".to_string(alloc),
        }
    }

    fn is_wanted(&self, had: &str, wanted: &str) -> bool {
        had == wanted
    }
}

/// Whether bytes are a secret or a public key, the public key of them as a secret, and what is shown of them as a public key.
fn key<K: Scheme>(alloc: Global, scheme: &K, given: &str) -> Result<String, AllocError> {
    match bytes_of(alloc, given)? {
        Some(key) => key_fields(alloc, scheme, key.as_slice()),
        None => "no hex".to_string(alloc),
    }
}

fn key_fields<K: Scheme>(alloc: Global, scheme: &K, key: &[u8]) -> Result<String, AllocError> {
    let digits = public_digits(alloc, scheme, key)?;
    let shown = scheme.shown(alloc, key)?;
    let (secret_fits, public_fits) = (scheme.secret_fits(key), scheme.public_fits(key));
    format!(in alloc;
        "{}: secret {secret_fits}, public {public_fits}, its public key {digits}, shown as [{shown}]",
        scheme.method()
    )
}

fn public_digits<K: Scheme>(alloc: Global, scheme: &K, key: &[u8]) -> Result<String, AllocError> {
    if scheme.secret_fits(key) {
        let public = scheme.public(alloc, key)?;
        hex_digits(alloc, public.as_slice())
    } else {
        "none".to_string(alloc)
    }
}

/// The signature of a message by a secret, where it is the same with the public key at hand and without.
fn signature<K: Scheme>(alloc: Global, scheme: &K, given: &str) -> Result<String, AllocError> {
    match three(alloc, given)? {
        Some((secret, message, _)) => signed(alloc, scheme, secret.as_slice(), message.as_slice()),
        None => "no hex".to_string(alloc),
    }
}

fn signed<K: Scheme>(
    alloc: Global,
    scheme: &K,
    secret: &[u8],
    message: &[u8],
) -> Result<String, AllocError> {
    let first = scheme.sign(alloc, secret, message)?;
    let second = sign_with(secret, &public_of(secret), message);
    if first.as_slice() == &second[..] {
        hex_digits(alloc, first.as_slice())
    } else {
        "two signatures".to_string(alloc)
    }
}

/// Whether a signature of a message is valid under a public key.
fn verified<K: Scheme>(alloc: Global, scheme: &K, given: &str) -> Result<String, AllocError> {
    match three(alloc, given)? {
        Some((public, message, signature)) => {
            let valid = scheme.verify(public.as_slice(), message.as_slice(), signature.as_slice());
            format!(in alloc; "{valid}")
        }
        None => "no hex".to_string(alloc),
    }
}
