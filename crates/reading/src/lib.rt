// What the readers of joined texts share.

#![tactic(auto)]

pub mod areas;
pub mod format;
pub mod outputs;
pub mod records;
