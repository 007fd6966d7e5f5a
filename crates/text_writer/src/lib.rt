// Writers of bytes, below everything that writes an image or a text.
#![tactic(auto)]

pub mod sink;
