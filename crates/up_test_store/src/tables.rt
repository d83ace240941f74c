//! Statements on the tables, by cases: each section is a database in memory, and each of its cases a statement on it, with what it
//! has to answer. `calls` says how statements are spelled, `spelled` and `shown` how rows of tables are.
pub(crate) mod calls;
mod reads;
mod shown;
mod spelled;
mod texts;
mod words;
mod writes;
