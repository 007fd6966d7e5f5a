// The refusals, each by a name of its own: document 01's thirty-two, and those of document 02 so far.
#![tactic(auto)]

pub mod refusal;
