//! The bytes of a head, taken from a piece.
ghost use Rattle.std.specs.Prelude.{◌≡◌, ◌≤◌, ◌<◌, ◌+◌, ◌-◌, ◌++◌, [], ◌∷◌, ◌||◌, not, IfOk, OnErr, take, vec_len, vec_capacity, false};
ghost use Rattle.up_http.specs.Feeding.{Waits};
ghost use Rattle.up_http.specs.Parts.{Begins, TakesHead, ReadsByte, is_newline as newline};

use std::alloc::AllocError;
use up_heads::heads::{Front, front_of};

/// The most bytes of a head.
const MOST_HEAD: usize = 16_384;

/// What was taken of a piece.
#[derive(Clone, Copy, Drop)]
pub(crate) struct Taken {
    /// How many bytes.
    pub bytes: usize,
    /// Whether a byte of the request line has come.
    pub begun: bool,
    /// How the head stands.
    pub front: Front,
}

/// Takes bytes to a head, to its end or to the piece's. Without the last one nothing could be answered.
pub(crate) fn take_head(head: &mut Vec<u8>, begun: bool, piece: &[u8]) -> Result<Taken, AllocError>
    requires { Begins head.old.items begun }
    ensures ok { IfOk result (λ taken. TakesHead head.old.items piece.now taken head.new.items) }
    ensures waited { IfOk result (λ taken. Waits (head.old.items ++ take (taken.bytes - 1) piece.now)) }
    ensures err { OnErr result (head.new.items ≡ head.old.items) }
{
    let room = MOST_HEAD - head.len();
    let most = if piece.len() < room {
        piece.len()
    } else {
        room
    };
    head.reserve(most)?;
    let mut seen = begun;
    for i in 0..most {
        let (now, front) = take_byte(head, seen, piece[i]);
        seen = now;
        if !matches!(&front, Front::Cut) {
            return Ok(Taken {
                bytes: i + 1,
                begun: seen,
                front,
            });
        }
    }
    let front = if most == room { Front::Bad } else { Front::Cut };
    Ok(Taken {
        bytes: most,
        begun: seen,
        front,
    })
}

/// Takes the next byte, where there is room for it. Only a line feed behind the first byte of the request line can end a
/// head, so only there the bytes are read as one.
fn take_byte(head: &mut Vec<u8>, begun: bool, byte: u8) -> (bool, Front)
    requires begins { Begins head.old.items begun }
    requires room { vec_len head.old < vec_capacity head.old }
    ensures items { head.new.items ≡ head.old.items ++ byte ∷ [] }
    ensures capacity { vec_capacity head.old ≤ vec_capacity head.new }
    ensures stands { ReadsByte head.new.items result.0 result.1 }
{
    head.push(byte).unwrap();
    let begun = has_begun(begun, byte);
    if byte != b'\n' {
        return (begun, Front::Cut);
    }
    if !begun {
        return (false, Front::Cut);
    }
    (true, front_of(head.as_slice()))
}

/// Whether a byte of the request line has come, with this one.
fn has_begun(begun: bool, byte: u8) -> bool
    ensures { result ≡ (begun || not (newline byte)) }
{
    begun || !is_newline(byte)
}

/// CR or LF.
fn is_newline(byte: u8) -> bool
    ensures { result ≡ newline byte }
{
    byte == b'\r' || byte == b'\n'
}
