// The instruction layer: the words and texts of each form, and the instruction of a word.
#![tactic(auto)]

pub mod display;
pub mod encoder;
