//! What `joint` answers, of a point whose multiples are at hand: a digit of each half of the two numbers at a time.
ghost use Rattle.std.specs.Prelude.{◌≡◌, ℕ, ◌+◌, ◌*◌, ◌%◌, ◌<◌, ◌^◌, false, true, length};
ghost use Rattle.up_field.specs.Points.{Writes};
ghost use Rattle.up_curve.specs.Curve.{Point, base as base_point, multiple};
ghost use Rattle.up_curve.specs.LittleEndian.{number};
ghost use Rattle.up_curve.specs.Points.{IsPoint};
ghost use Rattle.up_field.specs.Tables.{pair, AreMultiples};

use crate::bytes::from_bytes;
use crate::cached::Cached;
use crate::far_table::far_table;
use crate::joint::odd_multiples;
use crate::odd_table::odd_table;
use crate::points::{Extended, neutral};
use crate::sides::{doubled, extended, flat, without_t};
use crate::sparse::scatter;
use crate::terms::{by_base, by_point};
use crate::words::in_words;

/// Odd multiples of a point, and of 2^129 times it: 2,048 bytes.
#[derive(Clone, Copy)]
pub struct Multiples {
    pub low: [Cached; 8],
    pub high: [Cached; 8],
}

/// The multiples of a point. They take 129 doubles, which each use of them saves.
pub fn multiples_of(a: Extended) -> Multiples
    ensures { (m : Point) → Writes a m → AreMultiples result m }
{
    let low = odd_multiples(a);
    let high = odd_multiples(far(a));
    Multiples { low, high }
}

/// 2^129 times a point.
fn far(a: Extended) -> Extended
    ensures { (m : Point) → Writes a m → Writes result (multiple (2 ^ 129) m) }
{
    let mut r = without_t(a);
    for i in 0..129usize {
        r = flat(doubled(r));
    }
    extended(r)
}

/// A multiple of a point and one of the base point. How long it takes depends on both numbers.
pub fn joint_by(k: &[u8; 32], t: &Multiples, s: &[u8; 32]) -> Extended
    ensures { (m : Point) → IsPoint m → AreMultiples t.now m
        → Writes result (pair (number k.now) (number s.now) m base_point) }
{
    let x = scatter(in_words(from_bytes(k)), false);
    let y = scatter(in_words(from_bytes(s)), true);
    let mut r = without_t(neutral());
    for i in 0..129usize {
        let mut s = doubled(r);
        by_point(&mut s, &t.low, x.plus[128 - i], x.minus[128 - i]);
        by_point(&mut s, &t.high, x.plus[257 - i], x.minus[257 - i]);
        by_base(&mut s, odd_table(), y.plus[128 - i], y.minus[128 - i]);
        by_base(&mut s, far_table(), y.plus[257 - i], y.minus[257 - i]);
        r = flat(s);
    }
    extended(r)
}
