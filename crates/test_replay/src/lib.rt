// What the programs share that replay a list of the oracle: reading its records, counting, and the text of a report. Nothing here
// calls a crate under test, so that no fault of one can hide itself.
#![tactic(auto)]

pub mod cursor;
pub mod list;
pub mod replay;
pub mod report;
pub mod room;
pub mod tally;
