//! Numbers in bits of which few stand, and stand for more than one: odd numbers, some of them taken off, with 0 behind each.
ghost use Rattle.std.specs.Prelude.{◌≡◌, ◌+◌, ◌*◌, ◌%◌, ◌<◌, ◌^◌, false, true};
ghost use Rattle.up_field.specs.Points.{number};
ghost use Rattle.up_field.specs.Sparse.{AreDigits, EndsAt, IsCut, IsDigit, scattered};

use crate::words::Words;

/// A number's digits: those that are added, and those that are taken off.
#[derive(Clone, Copy)]
pub(crate) struct Digits {
    pub plus: [u8; 258],
    pub minus: [u8; 258],
}

/// A digit, and half of the number without it: the words and the carry.
#[derive(Clone, Copy)]
struct Step {
    pub plus: u64,
    pub minus: u64,
    pub rest: Words,
    pub carry: u64,
}

/// A number in 258 digits, each 0 or odd: below 128 where they are wide, and else below 16.
pub(crate) fn scatter(n: Words, wide: bool) -> Digits
    ensures value { scattered result.plus ≡ number n + scattered result.minus }
    ensures plus { AreDigits wide result.plus }
    ensures minus { AreDigits wide result.minus }
{
    let mut plus = [0u8; 258];
    let mut minus = [0u8; 258];
    let mut rest = n;
    let mut carry = 0u64;
    for i in 0..258usize {
        let s = next_digit(rest, carry, wide);
        plus[i] = s.plus as u8;
        minus[i] = s.minus as u8;
        rest = s.rest;
        carry = s.carry;
    }
    Digits { plus, minus }
}

/// Behind how many digits of two numbers the others are 0.
pub(crate) fn top(x: &Digits, y: &Digits) -> usize
    ensures limit { result < 259 }
    ensures ends { EndsAt result x.now.plus y.now.plus × EndsAt result x.now.minus y.now.minus }
{
    for i in 0..258usize {
        let j = 257 - i;
        if x.plus[j] != 0 || x.minus[j] != 0 || y.plus[j] != 0 || y.minus[j] != 0 {
            return j + 1;
        }
    }
    0
}

/// The lowest digit of a number and a carry.
#[inline(always)]
fn next_digit(n: Words, carry: u64, wide: bool) -> Step
    requires { carry < 2 }
    ensures cut { IsCut result (number n + carry) }
    ensures digits { IsDigit wide result.plus × IsDigit wide result.minus }
{
    if wide {
        wide_digit(n, carry)
    } else {
        narrow_digit(n, carry)
    }
}

/// The lowest digit by eight bits, 0 where the sum is even. From half of 256 on what is missing is taken off.
#[inline(always)]
fn wide_digit(n: Words, carry: u64) -> Step
    requires { carry < 2 }
    ensures cut { IsCut result (number n + carry) }
    ensures digits { IsDigit true result.plus × IsDigit true result.minus }
{
    let low = n.a % 256;
    let t = low + carry;
    if t % 2 == 0 {
        return Step {
            plus: 0,
            minus: 0,
            rest: halved(n.a, n),
            carry,
        };
    }
    if t < 128 {
        return Step {
            plus: t,
            minus: 0,
            rest: halved(n.a - low, n),
            carry: 0,
        };
    }
    Step {
        plus: 0,
        minus: 256 - t,
        rest: halved(n.a - low + 255, n),
        carry: 1,
    }
}

/// The lowest digit by five bits, in the same way.
#[inline(always)]
fn narrow_digit(n: Words, carry: u64) -> Step
    requires { carry < 2 }
    ensures cut { IsCut result (number n + carry) }
    ensures digits { IsDigit false result.plus × IsDigit false result.minus }
{
    let low = n.a % 32;
    let t = low + carry;
    if t % 2 == 0 {
        return Step {
            plus: 0,
            minus: 0,
            rest: halved(n.a, n),
            carry,
        };
    }
    if t < 16 {
        return Step {
            plus: t,
            minus: 0,
            rest: halved(n.a - low, n),
            carry: 0,
        };
    }
    Step {
        plus: 0,
        minus: 32 - t,
        rest: halved(n.a - low + 31, n),
        carry: 1,
    }
}

/// Half of a number with another lowest word, rounded down.
#[inline(always)]
fn halved(a: u64, n: Words) -> Words
    ensures { 2 * number result + a % 2 ≡ a + 2 ^ 64 * n.b + 2 ^ 128 * n.c + 2 ^ 192 * n.d }
{
    Words {
        a: a / 2 + n.b % 2 * (1 << 63),
        b: n.b / 2 + n.c % 2 * (1 << 63),
        c: n.c / 2 + n.d % 2 * (1 << 63),
        d: n.d / 2,
    }
}
