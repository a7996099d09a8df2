// The BENCH reader.

#![tactic(auto)]

pub mod declarations;
pub mod gates;
pub mod lines;
pub mod read;
