//! The lines of a row by their marks.
use std::alloc::{AllocError, Global};

/// The lines of a row that bear one of these marks, without it. A line is its mark, a space and the rest.
pub(crate) fn marked(alloc: Global, row: &str, marks: &str) -> Result<String, AllocError> {
    let mut out = String::new(alloc);
    for line in row.lines() {
        push_marked(&mut out, line, marks)?;
    }
    Ok(out)
}

fn push_marked(out: &mut String, line: &str, marks: &str) -> Result<(), AllocError> {
    match line.split_once(' ') {
        Some((mark, rest)) if marks.contains(mark) => push_line(out, rest),
        _ => Ok(()),
    }
}

/// Appends a line and its newline.
pub(crate) fn push_line(out: &mut String, line: &str) -> Result<(), AllocError> {
    out.push_str(line)?;
    out.push('\n')
}
