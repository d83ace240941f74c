//! An entry of a table at a secret place, without a branch.
ghost use Rattle.std.specs.Prelude.{◌≡◌, ◌+◌, ◌*◌, ◌<◌, slice_index_or};
ghost use Rattle.up_field.specs.Choices.{IsChoice};
ghost use Rattle.up_field.specs.Comb.{IsClear};

use crate::affine::Affine;
use crate::linear::merged;
use crate::words::zero;

/// An entry of a row of a table, by reading all of the row. One bit of `w` stands, and comes to its end at the entry.
/// Apart from its caller, the compiler adds two words at a time.
#[inline(never)]
pub(crate) fn pick(table: &[Affine; 272], row: usize, k: u64) -> Affine
    requires row { row < 17 }
    requires digit { k < 16 }
    ensures { (q : Affine) → result ≡ slice_index_or table.now (16 * row + k) q }
{
    let mut r = clear();
    let mut w = 1u64 << (k as u32);
    for i in 0..16usize {
        let bit = w % 2;
        w = w / 2;
        let e = table[16 * row + i];
        r = merged_entries(bit, e, r);
    }
    r
}

/// An entry or another that is 0 so far, without a branch.
#[inline(always)]
fn merged_entries(bit: u64, a: Affine, r: Affine) -> Affine
    requires bit { bit < 2 }
    requires clear { bit ≡ 1 → IsClear r }
    ensures { IsChoice bit a r result }
{
    Affine {
        plus: merged(bit, a.plus, r.plus),
        minus: merged(bit, a.minus, r.minus),
        t: merged(bit, a.t, r.t),
    }
}

/// Numbers that are 0.
fn clear() -> Affine
    ensures { IsClear result }
{
    let n = zero();
    Affine {
        plus: n,
        minus: n,
        t: n,
    }
}
