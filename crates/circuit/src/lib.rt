// The vocabulary of the module: refusals, circuit records in flat areas, and the circuit check.

#![tactic(auto)]

pub mod areas;
pub mod check;
pub mod checked;
pub mod nodes;
pub mod records;
pub mod refusals;
