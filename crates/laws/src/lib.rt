// Laws over lists, bits and areas of records, each stated once; and how many records an area is used for.

#![tactic(auto)]

ghost use Rattle.std.specs.Prelude.{◌≡◌};

/// The most records that an area of nodes, names, outputs or wires is used for.
pub const MOST_RECORDS: usize = 1_048_576;

/// The figure that the definitions mean where they name it. A law: it does nothing when it runs.
pub fn records_cap()
    ensures { MOST_RECORDS ≡ 1048576 }
{}
