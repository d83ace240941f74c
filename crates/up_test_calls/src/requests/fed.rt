//! What is asked by the requests of pieces that are fed.
use std::alloc::{AllocError, Global};
use up_heads::check::Check;
use up_http::asked::{Next, Step, What};
use up_http::feeder::Feeder;
use up_machine::command::Command;
use up_roles::repository::Repository;

/// What the requests of an input ask, in pieces of so many bytes, the first cut at a place.
pub(crate) fn fed(
    alloc: Global,
    input: &[u8],
    cut: usize,
    step: usize,
) -> Result<String, AllocError> {
    let mut feeder = Feeder::new(alloc);
    let mut out = String::new(alloc);
    let (first, back) = input.split_at(cut.min(input.len()));
    feed(alloc, &mut feeder, first, &mut out)?;
    for piece in back.chunks(step.max(1)) {
        feed(alloc, &mut feeder, piece, &mut out)?;
    }
    end(alloc, &mut feeder, &mut out)?;
    Ok(out)
}

/// Feeds a piece whole, and tells the requests that it ends.
fn feed(
    alloc: Global,
    feeder: &mut Feeder,
    piece: &[u8],
    out: &mut String,
) -> Result<(), AllocError> {
    let mut rest = piece;
    for _ in 0..102 {
        match feed_once(alloc, feeder, rest, out)? {
            Some(taken) => rest = rest.get(taken..).unwrap_or(b""),
            None => return Ok(()),
        }
    }
    Ok(())
}

/// Feeds a piece, and tells the request that it ends: how many bytes were taken then.
fn feed_once(
    alloc: Global,
    feeder: &mut Feeder,
    piece: &[u8],
    out: &mut String,
) -> Result<Option<usize>, AllocError> {
    match feeder.feed(piece) {
        Ok(Step { taken, next }) => told(alloc, taken, next, out),
        Err(refused) => Err(refused),
    }
}

fn told(
    alloc: Global,
    taken: usize,
    next: Option<Next>,
    out: &mut String,
) -> Result<Option<usize>, AllocError> {
    match next {
        None => Ok(None),
        Some(next) => behind(taken, tell(alloc, &next, out)),
    }
}

/// The bytes taken, where the request that they end could be told.
fn behind(taken: usize, told: Result<(), AllocError>) -> Result<Option<usize>, AllocError> {
    match told {
        Ok(()) => Ok(Some(taken)),
        Err(refused) => Err(refused),
    }
}

/// Ends the stream, and tells the request that is left.
fn end(alloc: Global, feeder: &mut Feeder, out: &mut String) -> Result<(), AllocError> {
    match feeder.end() {
        Some(next) => tell(alloc, &next, out),
        None => Ok(()),
    }
}

/// Appends what a request asks, and whether it is HEAD's and the last.
fn tell(alloc: Global, next: &Next, out: &mut String) -> Result<(), AllocError> {
    push_what(alloc, &next.what, out)?;
    if next.head {
        out.push_str(" head")?;
    }
    if next.last {
        out.push_str(" last")?;
    }
    out.push(';')
}

fn push_what(alloc: Global, what: &What, out: &mut String) -> Result<(), AllocError> {
    match what {
        What::Call(command) => push_command(alloc, command, out),
        What::Fixed(check) => out.push_str(words(*check)),
    }
}

fn push_command(alloc: Global, command: &Command, out: &mut String) -> Result<(), AllocError> {
    match command {
        Command::Deliver(body) => push_length(alloc, body.as_slice(), out),
        Command::Fetch(Repository::Director, file) => push_file("director ", file.text(), out),
        Command::Fetch(Repository::Image, file) => push_file("image ", file.text(), out),
        _ => out.push_str("another command"),
    }
}

fn push_length(alloc: Global, body: &[u8], out: &mut String) -> Result<(), AllocError> {
    let text = format!(in alloc; "manifest {}", body.len())?;
    out.push_str(text.as_str())
}

fn push_file(repository: &str, file: &str, out: &mut String) -> Result<(), AllocError> {
    out.push_str(repository)?;
    out.push_str(file)
}

fn words(check: Check) -> &'static str {
    match check {
        Check::BadRequest => "400",
        Check::NotFound => "404",
        Check::AllowGet => "405 GET",
        Check::AllowPost => "405 POST",
        Check::LengthRequired => "411",
        Check::TooLarge => "413",
        Check::NotImplemented => "501",
    }
}
