// The instruction layer, lower half: the table of mnemonics and the instructions, with the definitions of operands, words and text.
#![tactic(auto)]

pub mod field;
pub mod form;
pub mod instruction;
pub mod opcode;
