// The instruction layer: the text of each of the fifty cases.
#![tactic(auto)]

pub mod display;
