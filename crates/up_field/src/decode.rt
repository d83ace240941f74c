//! The point that 32 bytes write.
ghost use Rattle.std.specs.Prelude.{◌≡◌, ℕ, ◌+◌, ◌*◌, ◌%◌, ◌/◌, ◌^◌, ◌<◌, ◌&&◌, eqb, length};
ghost use Rattle.up_curve.specs.Field.{p};
ghost use Rattle.up_field.specs.Points.{number, Writes};
ghost use Rattle.up_curve.specs.Curve.{d as d_of, Point};
ghost use Rattle.up_curve.specs.Field.{sqrt_minus_one as i_of};
ghost use Rattle.up_curve.specs.Encoding.{candidate, root_of, u_of, v_of, signed as signed_of, with_root, decode as decode_of};
ghost use Rattle.up_curve.specs.Points.{IsPoint};
ghost use Rattle.up_field.specs.Decoded.{IsReduced, IsRoot, IsMaybe};

use crate::bytes::from_bytes;
use crate::canonical::{are_same, canonical, is_reduced, is_zero};
use crate::linear::{add, sub};
use crate::points::Extended;
use crate::power::root_power;
use crate::products::mul;
use crate::squares::square;
use crate::words::{Words, in_words, one, split, zero};

/// The point that 32 bytes write.
pub fn decode(bytes: &[u8]) -> Option<Extended>
    requires { length bytes.now ≡ 32 }
    ensures { IsMaybe result (decode_of bytes.now) }
{
    let n = in_words(from_bytes(bytes));
    let (y, sign) = split(n);
    if is_reduced(y) {
        with_sign(y, sign)
    } else {
        None
    }
}

/// The number d of the curve.
#[inline(always)]
fn d() -> Words
    ensures { number result ≡ d_of }
{
    Words {
        a: 8496970652267935907,
        b: 31536524315187371,
        c: 10144147576115030168,
        d: 5909686906226998899,
    }
}

/// A root of -1.
#[inline(always)]
fn root_of_minus_one() -> Words
    ensures { number result ≡ i_of }
{
    Words {
        a: 14190309331451158704,
        b: 3405592160176694392,
        c: 3120150775007532967,
        d: 3135389899092516619,
    }
}

/// The candidate for a root of u / v.
fn candidate_of(u: Words, v: Words) -> Words
    ensures value { (a b : ℕ) → number u % p ≡ a % p → number v % p ≡ b % p → number result ≡ candidate a b }
    ensures limit { IsReduced result }
{
    let v2 = square(v);
    let v3 = mul(v2, v);
    let v6 = square(v3);
    let v7 = mul(v6, v);
    let w = mul(u, v7);
    let s = root_power(w);
    let t = mul(u, v3);
    let r = mul(t, s);
    canonical(r)
}

/// The root of u / v, if there is one.
fn root(u: Words, v: Words) -> Option<Words>
    ensures { (a b : ℕ) → number u % p ≡ a % p → number v % p ≡ b % p → IsRoot result (root_of a b (candidate a b)) }
{
    let c = candidate_of(u, v);
    let s = square(c);
    let w = mul(v, s);
    if are_same(w, u) {
        return Some(c);
    }
    if is_zero(add(w, u)) {
        let n = mul(c, root_of_minus_one());
        let r = canonical(n);
        return Some(r);
    }
    None
}

/// A point by its coordinates.
#[inline(always)]
fn affine(x: Words, y: Words) -> Extended
    ensures { (m : Point) → IsPoint m → number x % p ≡ m.x → number y % p ≡ m.y → Writes result m }
{
    Extended {
        x,
        y,
        z: one(),
        t: mul(x, y),
    }
}

/// Whether a root is 0 and its sign is 1.
fn is_refused(r: Words, sign: u64) -> bool
    requires { IsReduced r }
    ensures { result ≡ (eqb (number r) 0 && eqb sign 1) }
{
    is_zero(r) && sign == 1
}

/// The point with a root and whether its first coordinate is odd.
fn signed(y: Words, sign: u64, r: Words) -> Option<Extended>
    requires second { IsReduced y }
    requires bit { sign < 2 }
    requires root { IsReduced r }
    requires curve { (v_of (number y) * (number r * number r)) % p ≡ u_of (number y) % p }
    ensures { IsMaybe result (signed_of sign (number y) (number r)) }
{
    if is_refused(r, sign) {
        return None;
    }
    if r.a % 2 == sign {
        return Some(affine(r, y));
    }
    let x = sub(zero(), r);
    Some(affine(x, y))
}

/// The point with a second coordinate and whether its first is odd.
fn with_sign(y: Words, sign: u64) -> Option<Extended>
    requires second { IsReduced y }
    requires bit { sign < 2 }
    ensures { IsMaybe result
        (with_root sign (number y)
        (root_of (u_of (number y)) (v_of (number y)) (candidate (u_of (number y)) (v_of (number y))))) }
{
    let s = square(y);
    let u = sub(s, one());
    let t = mul(s, d());
    let v = add(t, one());
    match root(u, v) {
        None => None,
        Some(r) => signed(y, sign, r),
    }
}
