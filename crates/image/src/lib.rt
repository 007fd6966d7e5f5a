// The image layer: settings, header and opening; the definitions of assembling and listing.
#![tactic(auto)]

pub mod config;
pub mod limits;
pub mod program;
