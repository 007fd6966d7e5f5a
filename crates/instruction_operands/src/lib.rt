// The instruction layer: a line's tokens read as an instruction.
#![tactic(auto)]

pub mod assembler;
pub mod source;
mod tokens;
