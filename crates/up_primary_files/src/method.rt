//! The schemes by which a Primary verifies.
ghost use Rattle.std.specs.Prelude.{◌≡◌};
ghost use Rattle.up_primary_files.specs.States.{method_named};
ghost use Rattle.up_primary_files.specs.Written.{method_name};

/// A scheme by which a Primary verifies.
#[derive(Clone, Copy)]
pub enum Method {
    /// HMAC-SHA-256: Roots show no keys, so the Primary holds them.
    Hmac,
    /// Ed25519: Roots show their keys.
    Ed25519,
}

impl Method {
    /// The one of this name, if there is one.
    pub(crate) fn named(name: &str) -> Option<Method>
        ensures { result ≡ method_named name.now }
    {
        if name == "hmac-sha256" {
            Some(Method::Hmac)
        } else if name == "ed25519" {
            Some(Method::Ed25519)
        } else {
            None
        }
    }

    /// Its name in Roots and signatures.
    pub(crate) fn name(self) -> &'static str
        ensures { result.now ≡ method_name self }
    {
        match self {
            Method::Hmac => "hmac-sha256",
            Method::Ed25519 => "ed25519",
        }
    }
}
