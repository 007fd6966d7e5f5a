// Assembling: the image of a source, and its labels in a lent table.
#![tactic(auto)]

pub mod assembler;
