//! What is proved of the definitions.
ghost use Rattle.std.specs.Prelude.{◌≡◌};
ghost use Rattle.up_curve.specs.Primes.{IsPrime};
ghost use Rattle.up_curve.specs.Field.{p};
ghost use Rattle.up_curve.specs.Curve.{multiple, base, order, neutral};
ghost use Rattle.up_curve.specs.Laws.{AreConstants, InversesInvert, ArePointsAGroup, EncodedIsDecoded, DecodedIsEncoded, AreSized, SignedIsValid};
ghost use Rattle.up_curve.specs.Keys.{PublicsArePublic};

/// The modulus is prime, each number but 0 has its inverse, and the literals are what RFC 8032 says of them.
pub fn field_laws()
    ensures prime { IsPrime p }
    ensures inverses { InversesInvert }
    ensures constants { AreConstants }
{}

/// The points of the curve are a commutative group, in which the order times the base point is neutral; the order is prime.
pub fn curve_laws()
    ensures group { ArePointsAGroup }
    ensures order { multiple order base ≡ neutral }
    ensures prime { IsPrime order }
{}

/// A point is written by just one list of 32 bytes.
pub fn encoding_laws()
    ensures decoded { EncodedIsDecoded }
    ensures encoded { DecodedIsEncoded }
{}

/// Public keys and signatures have their sizes, the public key of each secret is a point of the base point's order, and each
/// signature of a secret is valid under its public key.
pub fn signature_laws()
    ensures sizes { AreSized }
    ensures keys { PublicsArePublic }
    ensures valid { SignedIsValid }
{}
