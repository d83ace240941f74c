//! Accepted manifests, as rows spell them: `VEHICLE COUNTER VERSION MOMENT ROOT SIGNED PLAN REPLY`.
//!
//! A plan is `ECU=FILE,..` or `-`, and a cause behind `!`: `ECU=needs=HARDWARE`, `ECU=conflicts=FILE` or `-`.
use crate::store::fault::Fault;
use crate::store::vehicles::vehicle_rows;
use crate::store::words::{
    count, file_name, ident, moment, number, parts_of, push_item, push_list, push_number,
    push_word, text, word,
};
use std::alloc::{AllocError, Global};
use up_canon::listed::Listed;
use up_machine::decision::AcceptedRows;
use up_machine::rows::Kept;
use up_plan::assigned::{Assigned, Cause, Plan};

/// `KEPT ; VEHICLE ; ECU ; ECU ..`
pub(crate) fn accepted_rows(alloc: Global, given: &str) -> Result<AcceptedRows, Fault> {
    let (row, rest) = parts_of(given);
    Ok(AcceptedRows {
        kept: kept(alloc, row)?,
        vehicle: vehicle_rows(alloc, rest)?,
    })
}

fn kept(alloc: Global, given: &str) -> Result<Kept, Fault> {
    Ok(Kept {
        counter: count(word(given, 1))?,
        version: number(word(given, 2))?,
        at: moment(word(given, 3))?,
        root: number(word(given, 4))?,
        vehicle: ident(alloc, word(given, 0))?,
        signed: text(alloc, word(given, 5))?,
        plan: plan(alloc, word(given, 6))?,
        reply: text(alloc, word(given, 7))?,
    })
}

fn plan(alloc: Global, word: &str) -> Result<Plan, Fault> {
    let (files, why) = word.split_once('!').unwrap_or((word, ""));
    Ok(Plan {
        assigned: Listed::new(assigned(alloc, files)?),
        withheld: cause(alloc, why)?,
    })
}

fn assigned(alloc: Global, words: &str) -> Result<Vec<Assigned>, Fault> {
    let mut assigned = Vec::new(alloc);
    for word in words.split(',') {
        if let Some((ecu, file)) = word.split_once('=') {
            assigned.push(assigned_one(alloc, ecu, file)?)?;
        }
    }
    Ok(assigned)
}

fn assigned_one(alloc: Global, ecu: &str, file: &str) -> Result<Assigned, Fault> {
    Ok(Assigned {
        ecu: ident(alloc, ecu)?,
        file: file_name(alloc, file)?,
    })
}

fn cause(alloc: Global, words: &str) -> Result<Option<Cause>, Fault> {
    let (ecu, rest) = words.split_once('=').unwrap_or((words, ""));
    match rest.split_once('=') {
        Some(("needs", hardware)) => Ok(Some(need(alloc, ecu, hardware)?)),
        Some(("conflicts", file)) => Ok(Some(conflict(alloc, ecu, file)?)),
        Some(_) => Err(Fault::Misspelled),
        None => Ok(None),
    }
}

fn need(alloc: Global, ecu: &str, hardware: &str) -> Result<Cause, Fault> {
    Ok(Cause::Need {
        ecu: ident(alloc, ecu)?,
        hardware: ident(alloc, hardware)?,
    })
}

fn conflict(alloc: Global, ecu: &str, file: &str) -> Result<Cause, Fault> {
    Ok(Cause::Conflict {
        ecu: ident(alloc, ecu)?,
        file: file_name(alloc, file)?,
    })
}

/// A kept row as it is told.
pub(crate) fn kept_text(alloc: Global, row: &Kept) -> Result<String, AllocError> {
    let mut out = String::new(alloc);
    push_word(&mut out, row.vehicle.text())?;
    push_number(alloc, &mut out, row.counter.get())?;
    push_number(alloc, &mut out, row.version)?;
    push_number(alloc, &mut out, row.at.get())?;
    push_number(alloc, &mut out, row.root)?;
    push_word(&mut out, row.signed.as_str())?;
    push_plan(alloc, &mut out, &row.plan)?;
    push_word(&mut out, row.reply.as_str())?;
    Ok(out)
}

fn push_plan(alloc: Global, out: &mut String, plan: &Plan) -> Result<(), AllocError> {
    push_assigned(alloc, out, plan.assigned.as_slice())?;
    match &plan.withheld {
        Some(cause) => push_cause(alloc, out, cause),
        None => out.push_str("!-"),
    }
}

fn push_assigned(alloc: Global, out: &mut String, assigned: &[Assigned]) -> Result<(), AllocError> {
    let mut list = String::new(alloc);
    for one in assigned {
        let (ecu, file) = (one.ecu.text(), one.file.text());
        let words = format!(in alloc; "{ecu}={file}")?;
        push_item(&mut list, words.as_str())?;
    }
    push_list(out, list.as_str())
}

fn push_cause(alloc: Global, out: &mut String, cause: &Cause) -> Result<(), AllocError> {
    let words = match cause {
        Cause::Need { ecu, hardware } => {
            format!(in alloc; "!{}=needs={}", ecu.text(), hardware.text())?
        }
        Cause::Conflict { ecu, file } => {
            format!(in alloc; "!{}=conflicts={}", ecu.text(), file.text())?
        }
    };
    out.push_str(words.as_str())
}
