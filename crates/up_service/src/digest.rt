//! The length and the digests of a stream.
ghost use Rattle.up_service.specs.Digests.{EndsReading, TellsDigests};

use sha2::{Digest, Sha256, Sha512};
use up_pieces::read_piece;
use up_pieces::source::Source;

/// One more than a file may have, in bytes.
const PAST_BYTES: u64 = 1_073_741_825;

/// How many bytes are read at once.
const PIECE_BYTES: usize = 8_192;

/// Why there are no digests.
#[derive(Clone, Copy, Debug, PartialEq, Eq, Drop)]
pub enum DigestFault {
    /// The reader failed.
    Read,
    /// There are more than 1,073,741,824 bytes.
    TooLong,
}

/// The number of bytes that the reader gives, their SHA-256 and their SHA-512 (FIPS 180-4), all in one pass. `TooLong` past
/// 1,073,741,824 bytes. Of a reader whose bytes are known at most one more than these is read, and none after a read that failed.
/// `Read` is told only where the reader failed. Takes no memory.
pub fn digest_stream<R: Source>(reader: &mut R) -> Result<(u64, [u8; 32], [u8; 64]), DigestFault>
    requires { R.can_read reader.old }
    ensures digests { TellsDigests (R.remaining reader.old) (R.remaining reader.new) result }
    ensures ends { EndsReading (R.has_ended reader.new) (R.has_failed reader.new) (R.can_read reader.new) result }
{
    let mut buffer = [0; PIECE_BYTES];
    let mut shorter = Sha256::new();
    let mut longer = Sha512::new();
    let mut most = PAST_BYTES;
    while most > 0 {
        match read_piece(reader, &mut buffer, most) {
            Ok(0) => return Ok((PAST_BYTES - most, shorter.finalize(), longer.finalize())),
            Ok(n) => {
                shorter.update(&buffer[..n]);
                longer.update(&buffer[..n]);
                most -= n as u64;
            }
            Err(_) => return Err(DigestFault::Read),
        }
    }
    Err(DigestFault::TooLong)
}
