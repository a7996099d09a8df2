// Graphs of cells that read nodes: see specs/ for the definitions and proofs/ for the laws.

#![tactic(auto)]

ghost use Rattle.std.specs.Prelude.{◌≡◌};

/// The most reads of a node: read (node, position) is number READS × node + 1 + position.
pub const READS: usize = 2;

/// The figure that the definitions mean where they name it. A law: it does nothing when it runs.
pub fn read_count()
    ensures { READS ≡ 2 }
{}
