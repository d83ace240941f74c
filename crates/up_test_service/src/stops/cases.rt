//! The rows of a section, carried out one after another.
use crate::stops::answers::{Answers, STOPPED};
use std::alloc::{AllocError, Global};

/// How many of the first rows were answered before, and how many were asked.
#[derive(Clone, Copy, Debug, PartialEq, Eq)]
pub(crate) struct Before {
    pub(crate) answered: usize,
    pub(crate) asked: usize,
}

/// How a run ended: with each row answered as it is due, by a stop with so many answered, or with another answer.
#[derive(Drop)]
pub(crate) enum Ended {
    Whole,
    Stopped(Before),
    Other(String),
}

/// What a row asks, what it is answered the first time, and what again.
#[derive(Clone, Copy)]
struct Step<'a> {
    asked: &'a str,
    first: &'a str,
    again: &'a str,
}

pub(crate) fn so_many(answered: usize, asked: usize) -> Before {
    Before { answered, asked }
}

/// All rows of a section were asked and answered.
pub(crate) fn all_of(section: &str) -> Before {
    let mut rows: usize = 0;
    for row in section.lines() {
        if step_of(row).is_some() {
            rows = rows.saturating_add(1);
        }
    }
    so_many(rows, rows)
}

/// The step of a row `ASKED => ANSWER => AGAIN`; of `ASKED => ANSWER`, which is answered so each time. None of another line.
fn step_of(row: &str) -> Option<Step<'_>> {
    let Some((asked, answers)) = row.split_once(" => ") else {
        return None;
    };
    let (first, again) = answers.split_once(" => ").unwrap_or((answers, answers));
    Some(Step {
        asked,
        first,
        again,
    })
}

/// Carries out the rows of a section, of which some were asked and answered before.
pub(crate) fn carried_out<C: Answers>(
    alloc: Global,
    calls: &mut C,
    section: &str,
    before: Before,
) -> Result<Ended, AllocError> {
    let mut at: usize = 0;
    for row in section.lines() {
        if let Some(step) = step_of(row) {
            match row_carried_out(alloc, calls, step, at, before)? {
                Ended::Whole => at = at.saturating_add(1),
                ended => return Ok(ended),
            }
        }
    }
    Ok(Ended::Whole)
}

fn row_carried_out<C: Answers>(
    alloc: Global,
    calls: &mut C,
    step: Step<'_>,
    at: usize,
    before: Before,
) -> Result<Ended, AllocError> {
    let had = calls.answer(alloc, step.asked)?;
    if is_due(step, at, before, had.as_str()) {
        return Ok(Ended::Whole);
    }
    let number = at.saturating_add(1);
    if had.as_str() == STOPPED {
        return Ok(Ended::Stopped(so_many(at, number)));
    }
    Ok(Ended::Other(format!(in alloc; "row {number} is answered {had}")?))
}

/// What was answered before is answered again, what wasn't asked as the first time, and what was asked without an answer either way.
fn is_due(step: Step<'_>, at: usize, before: Before, had: &str) -> bool {
    (at < before.asked && had == step.again) || (at >= before.answered && had == step.first)
}
