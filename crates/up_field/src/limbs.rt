//! Numbers in five limbs of 51 bits.
ghost use Rattle.std.specs.Prelude.{◌≡◌};
ghost use Rattle.up_field.specs.Limbs.{IsTight, number_of};

/// A number in five limbs of 51 bits, the least first, each with some bits to spare.
#[derive(Clone, Copy)]
pub struct Field {
    pub l0: u64,
    pub l1: u64,
    pub l2: u64,
    pub l3: u64,
    pub l4: u64,
}

/// The number 0.
#[inline(always)]
pub(crate) fn zero() -> Field
    ensures limit { IsTight result }
    ensures value { number_of result ≡ 0 }
{
    Field {
        l0: 0,
        l1: 0,
        l2: 0,
        l3: 0,
        l4: 0,
    }
}
