// Reader, schedule, run and `evaluate` in one call, and what is claimed of them together.

#![tactic(auto)]

pub mod circuits;
pub mod texts;
