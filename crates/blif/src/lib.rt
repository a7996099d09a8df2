// The BLIF reader.

#![tactic(auto)]

pub mod gates;
pub mod lines;
pub mod planned;
pub mod read;
pub mod words;
