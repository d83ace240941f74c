//! Tests of what files, lines and pieces are read from and written to: readers and writers that fail, or that may not be used after
//! they failed, limits, and database files.
#![tactic(auto)]

#[cfg(test)]
mod files;
#[cfg(test)]
mod lines;
#[cfg(test)]
mod older;
#[cfg(test)]
mod once;
#[cfg(test)]
mod pieces;
