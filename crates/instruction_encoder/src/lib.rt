// The instruction layer: the word of each of the fifty cases.
#![tactic(auto)]

pub mod encoder;
