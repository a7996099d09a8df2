// The static library: each call answers the refusal's number (0 where it accepts), and counts through references (0 on a refusal).

#![tactic(auto)]

pub mod answers;
pub mod assured;
pub mod checking;
pub mod parsing;
pub mod running;
