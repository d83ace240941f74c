//! Sums of a multiple of a point and one of the base point, neither of them secret.
ghost use Rattle.std.specs.Prelude.{◌≡◌, ℕ, ◌+◌, ◌*◌, ◌%◌, ◌<◌, false, true, length};
ghost use Rattle.up_field.specs.Points.{Writes};
ghost use Rattle.up_curve.specs.Curve.{Point, base as base_point};
ghost use Rattle.up_curve.specs.LittleEndian.{number};
ghost use Rattle.up_field.specs.Tables.{pair, IsTable};

use crate::bytes::from_bytes;
use crate::cached::{Cached, ready, sum_cached};
use crate::odd_table::odd_table;
use crate::points::{Extended, neutral};
use crate::sides::{doubled, extended, flat, twice, without_t};
use crate::sparse::{scatter, top};
use crate::terms::{by_base, by_point};
use crate::words::in_words;

/// A multiple of a point and one of the base point. How long it takes depends on both numbers and on the point.
pub fn joint(k: &[u8; 32], a: Extended, s: &[u8; 32]) -> Extended
    ensures { (m : Point) → Writes a m → Writes result (pair (number k.now) (number s.now) m base_point) }
{
    let multiples = odd_multiples(a);
    let x = scatter(in_words(from_bytes(k)), false);
    let y = scatter(in_words(from_bytes(s)), true);
    let n = top(&x, &y);
    let mut r = without_t(neutral());
    for i in 0..n {
        let j = n - 1 - i;
        let mut s = doubled(r);
        by_point(&mut s, &multiples, x.plus[j], x.minus[j]);
        by_base(&mut s, odd_table(), y.plus[j], y.minus[j]);
        r = flat(s);
    }
    extended(r)
}

/// The first eight odd multiples of a point.
pub(crate) fn odd_multiples(q: Extended) -> [Cached; 8]
    ensures { (m : Point) → Writes q m → IsTable result m }
{
    let two = ready(twice(q));
    let mut r = q;
    let mut t = [ready(q); 8];
    for i in 1..8usize {
        r = sum_cached(r, two);
        t[i] = ready(r);
    }
    t
}
