//! A row's lines by their marks.
//!
//! Its lines are marked: `>` a command, `?` a line that is none, `<` what is printed for a command, `!` what is printed for
//! another line, `=` the text of a reply, and `@` the method of the signature scheme.
use crate::marked::marked;
use std::alloc::{AllocError, Global};

/// The lines that a way of carrying out the row is given, and those that it has to answer.
#[derive(Drop)]
pub(crate) struct Row {
    pub(crate) method: String,
    pub(crate) asked: String,
    pub(crate) commands: String,
    /// What a script prints.
    pub(crate) printed: String,
    /// What a run answers.
    pub(crate) answered: String,
    /// What calls answer.
    pub(crate) called: String,
}

pub(crate) fn row_of(alloc: Global, lines: &str) -> Result<Row, AllocError> {
    Ok(Row {
        method: marked(alloc, lines, "@")?,
        asked: marked(alloc, lines, ">?")?,
        commands: marked(alloc, lines, ">")?,
        printed: marked(alloc, lines, "<!")?,
        answered: marked(alloc, lines, "<=")?,
        called: marked(alloc, lines, "<=!")?,
    })
}
