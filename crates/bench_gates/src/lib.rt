// The gates of BENCH: operations, inputs, and the cells of a chained gate.

#![tactic(auto)]

pub mod chains;
pub mod gates;
pub mod inputs;
pub mod operations;
pub mod plans;
pub mod short_chains;
