// The reading of one line: mostly from its bytes at once, where it is an instruction or a label or empty, and by the record of its tokens else.
#![tactic(auto)]

mod bytes;
mod fast;
pub mod line;
mod record;
