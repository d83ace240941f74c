//! The line that tells the digests of a file.
ghost use Rattle.std.specs.Prelude.{◌≡◌, ◌++◌, ◌+◌, ◌*◌, ◌≤◌, length};
ghost use Rattle.hex.specs.Hex.{encode_lower};
ghost use Rattle.up_program.specs.Messages.{digests_of, digests_line};

use crate::failure::Failure;
use crate::line::Line;
use itoa::Buffer;
use std::str;

/// The length of a file in bytes, its SHA-256 and its SHA-512.
#[derive(Clone, Copy, Debug, PartialEq, Eq, Drop)]
pub struct Digests {
    /// The length.
    pub length: u64,
    /// The SHA-256.
    pub sha256: [u8; 32],
    /// The SHA-512.
    pub sha512: [u8; 64],
}

impl Digests {
    /// What is told of a file that was read so.
    pub fn of<E: Drop>(read: Result<(u64, [u8; 32], [u8; 64]), E>) -> Result<Digests, Failure>
        ensures { result ≡ digests_of read }
    {
        match read {
            Ok(told) => {
                let (sha256, sha512) = (told.1, told.2);
                Ok(Digests {
                    length: told.0,
                    sha256,
                    sha512,
                })
            }
            Err(_) => Err(Failure::Unread),
        }
    }

    /// The line that tells them.
    pub fn line(&self) -> Line
        ensures { result.bytes ≡ digests_line self.now.length self.now.sha256 self.now.sha512 }
    {
        let mut line = Line::new();
        let mut digits = [0; 128];
        line.push_str(Buffer::new().format(self.length));
        line.push_str(" ");
        push_hex(&mut line, &self.sha256, &mut digits[..64]);
        line.push_str(" ");
        push_hex(&mut line, &self.sha512, &mut digits);
        line.push_str("\n");
        line
    }
}

/// Appends the digits of the bytes, made in the buffer.
fn push_hex(line: &mut Line, bytes: &[u8], digits: &mut [u8])
    requires digits { length digits.old ≡ 2 * length bytes.now }
    requires room { length line.old.bytes + 2 * length bytes.now ≤ 256 }
    ensures bytes { line.new.bytes ≡ line.old.bytes ++ encode_lower bytes.now }
    ensures len { length line.new.bytes ≡ length line.old.bytes + 2 * length bytes.now }
{
    hex::encode_to_slice(bytes, digits).unwrap();
    let Ok(text) = str::from_utf8(digits) else {
        unreachable!();
    };
    line.push_str(text);
}
