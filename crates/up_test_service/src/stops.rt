//! A run of a desk over two files, of which one stops at its first call, at its second, and so on, until a run meets no stop.
//!
//! After each stop the machine is started again, which leaves of the files what was synchronised. The files are opened and their
//! tables adopted, or created where there are none yet; then the whole run is repeated, and repeated once more after the files were
//! closed and opened. What was answered before the stop has to be answered as something that stands, and what wasn't asked before it
//! as the first time. Each run that isn't stopped ends with what the desk's views show. All this is done twice: each command by
//! itself, and all of them in one run of the desk.
//!
//! A section has cases `do LINE => ANSWER => AGAIN`: the line of a script, what it is answered the first time, and again. Behind the
//! line of a reply stands the reply's text. `version VEHICLE => NUMBER` and `installed ECU => IMAGE` are views, answered the same
//! each time.
mod answers;
mod cases;
pub(crate) mod in_turn;
mod machine;
mod runs;
mod together;
