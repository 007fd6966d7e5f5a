// The upper half of the text layer: tokens and the record of a line.
#![tactic(auto)]

pub mod lexer;
pub mod parser;
mod reader;
