//! What a stream asks.
use up_heads::check::Check;
use up_machine::command::Command;

/// What a request asks.
#[derive(Drop)]
pub enum What {
    /// A command: the delivery of a vehicle version manifest, or the reading of a file.
    Call(Command),
    /// A fixed answer.
    Fixed(Check),
}

/// A request.
#[derive(Drop)]
pub struct Next {
    /// What it asks.
    pub what: What,
    /// Whether its method is HEAD, whose answer has no body.
    pub head: bool,
    /// Whether the stream ends with it.
    pub last: bool,
}

/// What came of a piece.
#[derive(Drop)]
pub struct Step {
    /// How many bytes were taken.
    pub taken: usize,
    /// The request that is whole now.
    pub next: Option<Next>,
}
