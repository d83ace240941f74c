//! Columns that are plans.
use crate::columns::shown::{again, fields_of};
use std::alloc::{AllocError, Global};
use up_columns::plans::{plan_text, read_plan};
use up_plan::assigned::{Cause, Plan};

/// What is read of a plan's column, and whether it is written so again.
pub(crate) fn plan(alloc: Global, column: &str) -> Result<String, AllocError> {
    match read_plan(alloc, column) {
        Ok(plan) => plan_again(alloc, &plan, column),
        Err(refusal) => refusal.text(alloc),
    }
}

fn plan_again(alloc: Global, plan: &Plan, column: &str) -> Result<String, AllocError> {
    let fields = plan_fields(alloc, plan)?;
    again(alloc, fields, plan_text(alloc, plan), column)
}

fn plan_fields(alloc: Global, plan: &Plan) -> Result<String, AllocError> {
    let assigned = fields_of(alloc, plan.assigned.as_slice())?;
    match &plan.withheld {
        None => Ok(assigned),
        Some(cause) => with_cause(alloc, assigned, cause),
    }
}

fn with_cause(alloc: Global, assigned: String, cause: &Cause) -> Result<String, AllocError> {
    match cause {
        Cause::Need { ecu, hardware } => {
            format!(in alloc; "{assigned} {} needs {}", ecu.text(), hardware.text())
        }
        Cause::Conflict { ecu, file } => {
            format!(in alloc; "{assigned} {} conflicts with {}", ecu.text(), file.text())
        }
    }
}
