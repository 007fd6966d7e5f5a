// The lower half of the text layer: bytes, numbers and register names.
#![tactic(auto)]

pub mod bytes;
pub mod name;
pub mod number;
pub mod register;
