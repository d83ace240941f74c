//! Pieces of a reader, and texts that a writer takes in parts.
use crate::lines::Shaky;
use std::test::Fail;
use up_pieces::{NotWritten, read_piece, write_whole};

// promise: pieces
#[test]
fn reads_pieces(rt: HostRuntime) {
    let mut reader: &[u8] = b"abcdefgh";
    let mut buffer = [0; 4];
    // How many bytes are asked for at most, and what comes.
    let table: [(u64, &[u8]); 5] = [(0, b""), (2, b"ab"), (9, b"cdef"), (9, b"gh"), (9, b"")];
    for (most, wanted) in table {
        match read_piece(&mut reader, &mut buffer, most) {
            Ok(n) => assert_eq!(rt; &buffer[..n], wanted),
            Err(_) => assert!(rt; false, "no read fails"),
        }
    }
}

// promise: pieces
#[test]
fn writes_whole_or_a_part(rt: HostRuntime) -> Result<(), Fail> {
    // The calls that fail and that take nothing, the answer, and what was written by two bytes a call.
    let table: [(u32, u32, Result<(), NotWritten>, &[u8]); 4] = [
        (0, 0, Ok(()), b"abcde"),
        (1, 0, Err(NotWritten), b""),
        (2, 0, Err(NotWritten), b"ab"),
        (0, 3, Err(NotWritten), b"abcd"),
    ];
    for (fails_at, takes_none_at, result, written) in table {
        let mut writer = Shaky {
            written: Vec::new(rt.alloc()),
            step: 2,
            calls: 0,
            fails_at,
            takes_none_at,
        };
        assert_eq!(rt; write_whole(&mut writer, b"abcde"), result);
        assert_eq!(rt; writer.written.as_slice(), written);
    }
    Ok(())
}
