// The walks over the lines of a source: the first, but for entering its labels, and the second, which looks labels up.
#![tactic(auto)]

pub mod first_pass;
pub mod second_pass;
