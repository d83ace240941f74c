//! Moments.
use serde_json::Value;
use std::alloc::{AllocError, Global};
use up_canon::kinds::count_of;
use up_canon::moment::Moment;

/// The text of a second.
pub(crate) fn moment_text(alloc: Global, value: &Value) -> Result<String, AllocError> {
    match moment_of(value) {
        Some(moment) => moment.text(alloc),
        None => "none".to_string(alloc),
    }
}

/// The second a week behind a second.
pub(crate) fn moment_later(alloc: Global, value: &Value) -> Result<String, AllocError> {
    match moment_of(value) {
        Some(moment) if moment.get() <= 253401000000 => {
            format!(in alloc; "{}", moment.plus(604800).get())
        }
        _ => "none".to_string(alloc),
    }
}

fn moment_of(value: &Value) -> Option<Moment> {
    match count_of(value, "second") {
        Ok(second) => Moment::new(second.get()),
        Err(_) => None,
    }
}

/// The second of a text.
pub(crate) fn moment_read(alloc: Global, text: &str) -> Result<String, AllocError> {
    match Moment::read(text) {
        Some(moment) => format!(in alloc; "{}", moment.get()),
        None => "none".to_string(alloc),
    }
}
