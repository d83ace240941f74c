//! Rows as scripts.
use crate::compared::compared;
use crate::row::Row;
use crate::trickle::Trickle;
use sqlite::Alter;
use std::alloc::{AllocError, Global};
use up_desk::desk::Desk;
use up_service::script::run_script;
use up_sign::scheme::Scheme;

/// What the script prints, read so many bytes at a time, beside what the row says.
pub(crate) fn by_script<K: Scheme, D: Alter>(
    alloc: Global,
    desk: &mut Desk<K, D>,
    row: &Row,
    most: usize,
) -> Result<String, AllocError> {
    let mut written = Vec::new(alloc);
    let bytes = row.asked.as_bytes();
    let mut reader = Trickle { bytes, most };
    let answered = run_script(alloc, desk, &mut reader, &mut written).ok();
    let had = counted(alloc, written.as_slice(), answered)?;
    compared(alloc, had.as_str(), row.printed.as_str())
}

/// What was written, if it has as many lines as are told.
fn counted(alloc: Global, written: &[u8], answered: Option<u32>) -> Result<String, AllocError> {
    let printed = std::str::from_utf8(written).unwrap_or("no text\n");
    match answered {
        Some(lines) if lines as usize == printed.lines().count() => printed.to_string(alloc),
        Some(lines) => format!(in alloc; "{lines} lines told\n"),
        None => format!(in alloc; "stopped\n{printed}"),
    }
}
