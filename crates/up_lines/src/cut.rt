//! Bytes, cut at newlines.
ghost use Rattle.std.specs.Prelude.{◌≡◌, ◌<◌, ◌≤◌, ◌+◌, [], ◌∷◌, ◌++◌, MatchBool, MatchOption, true, length, take, filter};
ghost use Rattle.std.specs.List.{list_all};
ghost use Rattle.up_lines.specs.Lines.{newline, most_together, has_bytes};
ghost use Rattle.up_lines.specs.Progress.{is_inside};
ghost use Rattle.up_lines.specs.Together.{AreCut, bytes_of};

use crate::limits::MOST_TOGETHER;
use memchr::memchr;

/// The bytes before the first newline, and those behind it, if there is one.
pub(crate) fn cut_line(bytes: &[u8]) -> Option<(&[u8], &[u8])>
    ensures { MatchOption result (list_all is_inside bytes.now ≡ true)
        (λ cut. (list_all is_inside cut.0.now ≡ true) × (bytes.now ≡ cut.0.now ++ newline ∷ cut.1.now)) }
{
    match memchr(b'\n', bytes) {
        Some(at) => Some((&bytes[..at], &bytes[at + 1..])),
        None => None,
    }
}

/// Whether a line is whole among bytes.
pub(crate) fn has_line(bytes: &[u8]) -> bool
    ensures { MatchBool result (list_all is_inside bytes.now ≡ true → ⊥) (list_all is_inside bytes.now ≡ true) }
{
    match cut_line(bytes) {
        Some(_) => true,
        None => false,
    }
}

/// Lines that are cut from the front of bytes.
#[derive(Clone, Copy, Drop)]
pub(crate) struct Cut<'a> {
    /// Those that have any byte, and behind them anything.
    pub(crate) listed: [&'a [u8]; MOST_TOGETHER],
    /// How many these are.
    pub(crate) some: usize,
    /// How many lines are cut.
    pub(crate) counted: u32,
    /// How many bytes they have, with their newlines.
    pub(crate) taken: usize,
}

/// Cuts lines from the front, at most so many, and so many with a byte as may be handed on together.
pub(crate) fn cut_lines(bytes: &[u8], most: u32) -> Cut<'_>
    ensures cut { AreCut bytes.now most result.taken result.counted result.some result.listed }
    ensures some { 0 < most → (list_all is_inside bytes.now ≡ true → ⊥) → 0 < result.taken }
{
    let mut listed = places(bytes);
    let mut rest = bytes;
    let mut counted = 0;
    let mut some = 0;
    while counted < most && some < MOST_TOGETHER {
        match cut_line(rest) {
            Some((line, behind)) => {
                let listing = list_line(&mut listed, some, line);
                some = listing;
                counted += 1;
                rest = behind;
            }
            None => {
                let taken = bytes.len() - rest.len();
                return Cut {
                    listed,
                    some,
                    counted,
                    taken,
                };
            }
        }
    }
    let taken = bytes.len() - rest.len();
    Cut {
        listed,
        some,
        counted,
        taken,
    }
}

/// Lists a line behind so many, if it has any byte: how many there are then.
fn list_line<'a>(listed: &mut [&'a [u8]; MOST_TOGETHER], some: usize, line: &'a [u8]) -> usize
    requires { some < most_together }
    ensures few { result ≤ some + 1 }
    ensures listed { bytes_of (take result listed.new) ≡ bytes_of (take some listed.old) ++ filter has_bytes (line.now ∷ []) }
{
    if line.is_empty() {
        return some;
    }
    listed[some] = line;
    some + 1
}

/// Places for lines.
fn places(bytes: &[u8]) -> [&[u8]; MOST_TOGETHER]
    ensures { length result ≡ most_together }
{
    [bytes; MOST_TOGETHER]
}
