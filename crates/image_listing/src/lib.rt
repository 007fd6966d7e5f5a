// Listing: the text of an image.
#![tactic(auto)]

pub mod disassembler;
