// The label table: a lent slice of labels.
#![tactic(auto)]

pub mod label;
mod tree;
