//! Jobs of the program.

/// What the program is asked to do.
#[derive(Debug, Drop)]
pub enum Job {
    /// Runs a script from standard input over the database of this file.
    Run(String),
    /// Answers HTTP over the database of this file, at this port of 127.0.0.1, on so many connections; and scripts at the Unix
    /// socket of this path, if there is one.
    Serve(String, u16, u32, Option<String>),
    /// Prints the length and the digests of this file.
    Digest(String),
}
