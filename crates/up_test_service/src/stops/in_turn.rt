//! A section over files of which one stops at each of its calls in turn.
use crate::stops::cases::{Before, Ended, all_of, so_many};
use crate::stops::machine::{Machine, NEVER, Stopping, Way, stopping_after};
use crate::stops::runs::run;
use sqlite_disk::Crash;
use std::alloc::{AllocError, Global};

/// What came of one call at which a disk stops: a stop with so many rows answered, one that no answer told, none since there are
/// fewer calls, or something that isn't as the section says.
#[derive(Drop)]
enum Came {
    Stop(Before),
    Untold,
    End,
    Other(String),
}

/// What is told of a section whose commands are carried out one by one, and then of one run.
pub(crate) fn told(alloc: Global, section: &str) -> Result<String, AllocError> {
    let words = section.split_once('\n').unwrap_or((section, "")).0;
    let apart = told_of(alloc, section, words, Way::Apart)?;
    let run = format!(in alloc; "{words}, in one run")?;
    let together = told_of(alloc, section, run.as_str(), Way::Together)?;
    format!(in alloc; "{}\n{}", apart.as_str(), together.as_str())
}

/// What is told over a log that stops and over a database file that does, a line each.
fn told_of(alloc: Global, section: &str, words: &str, way: Way) -> Result<String, AllocError> {
    let log = stopped_in_turn(alloc, section, Stopping::Log, way)?;
    let db = stopped_in_turn(alloc, section, Stopping::Database, way)?;
    format!(in alloc; "{words}, a log that stops: {log}\n{words}, a database file that stops: {db}")
}

/// Where there were stops, or what isn't as the section says.
fn stopped_in_turn(
    alloc: Global,
    section: &str,
    stopping: Stopping,
    way: Way,
) -> Result<String, AllocError> {
    let mut places = String::new(alloc);
    let mut last = so_many(NEVER as usize, 0);
    for calls in 0..NEVER {
        match stopped_after(alloc, section, stopping, way, calls)? {
            Came::Stop(before) => {
                if before != last {
                    push_place(alloc, &mut places, before)?;
                    last = before;
                }
            }
            Came::Untold => {}
            Came::End => return Ok(places),
            Came::Other(text) => return format!(in alloc; "after {calls} calls {text}"),
        }
    }
    Ok(places)
}

/// Says where a stop was: in the first row without an answer, or before or behind all of them.
fn push_place(alloc: Global, places: &mut String, before: Before) -> Result<(), AllocError> {
    if !places.is_empty() {
        places.push_str(", ")?;
    }
    if before.asked > before.answered {
        let place = format!(in alloc; "in row {}", before.answered.saturating_add(1))?;
        return places.push_str(place.as_str());
    }
    places.push_str(if before.answered == 0 {
        "while it is opened"
    } else {
        "while it is closed"
    })
}

/// What comes of a stop behind so many calls.
fn stopped_after(
    alloc: Global,
    section: &str,
    stopping: Stopping,
    way: Way,
    calls: u64,
) -> Result<Came, AllocError> {
    let mut machine = stopping_after(alloc, stopping, way, calls);
    what_came(alloc, &mut machine, section)
}

/// What comes of a run on a machine whose disks may stop, of two more once it was started again.
fn what_came<D: Crash + Drop>(
    alloc: Global,
    machine: &mut Machine<D>,
    section: &str,
) -> Result<Came, AllocError> {
    let ended = run(alloc, machine, section, so_many(0, 0))?;
    let is_stopped = machine.is_stopped();
    match ended {
        Ended::Stopped(before) if is_stopped => {
            repeated(alloc, machine, section, before, Came::Stop(before))
        }
        Ended::Stopped(_) => Ok(Came::Other("a fault without a stop".to_string(alloc)?)),
        Ended::Whole => {
            let came = if is_stopped { Came::Untold } else { Came::End };
            repeated(alloc, machine, section, all_of(section), came)
        }
        Ended::Other(text) => Ok(Came::Other(text)),
    }
}

/// Starts the machine again and carries the section out twice: what came, or what isn't as the section says.
fn repeated<D: Crash + Drop>(
    alloc: Global,
    machine: &mut Machine<D>,
    section: &str,
    before: Before,
    came: Came,
) -> Result<Came, AllocError> {
    machine.start_again();
    match run(alloc, machine, section, before)? {
        Ended::Whole => repeated_at_last(alloc, machine, section, came),
        ended => otherwise(alloc, ended),
    }
}

fn repeated_at_last<D: Crash + Drop>(
    alloc: Global,
    machine: &mut Machine<D>,
    section: &str,
    came: Came,
) -> Result<Came, AllocError> {
    match run(alloc, machine, section, all_of(section))? {
        Ended::Whole => Ok(came),
        ended => otherwise(alloc, ended),
    }
}

/// A run after the machine was started again, which ends otherwise than it should.
fn otherwise(alloc: Global, ended: Ended) -> Result<Came, AllocError> {
    match ended {
        Ended::Other(text) => Ok(Came::Other(text)),
        _ => Ok(Came::Other("it stops again".to_string(alloc)?)),
    }
}
