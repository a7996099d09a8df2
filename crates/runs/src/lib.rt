// The three-valued run along a list of cells, and what lists are fit for it.

#![tactic(auto)]

pub mod fitness;
pub mod inputs;
pub mod run;
pub mod steps;
