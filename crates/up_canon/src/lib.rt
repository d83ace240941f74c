//! Names, counts, moments, canonical text, members of JSON objects, and refusals.
#![tactic(auto)]

pub mod bytes;
pub mod calendar;
pub mod canonical;
pub mod compared;
pub mod count;
pub mod each;
pub mod fields;
pub mod file_name;
pub mod hex_text;
pub mod ident;
pub mod json_text;
pub mod kinds;
pub mod limits;
pub mod listed;
pub mod moment;
mod moment_form;
pub mod name_readings;
pub mod named;
pub mod note;
pub mod readers;
pub mod refusal;
pub mod refusal_text;
pub mod table;
pub mod text;
pub mod writing;

ghost use Rattle.up_canon.specs.Canon.{PlainIsRead, CanonIsRead, CanonIsInjective};

/// A canonical text is read as its value, and so no two values share one. Printed in the same way, a value that
/// nests deeper is read too.
pub fn canonical_laws()
    ensures read { CanonIsRead }
    ensures injective { CanonIsInjective }
    ensures deeper { PlainIsRead }
{}
