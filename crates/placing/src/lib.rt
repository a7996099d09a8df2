// BLIF definitions in any order: in which order they are placed, and what is promised of it.

#![tactic(auto)]

pub mod definitions;
pub mod place;
pub mod promised;
