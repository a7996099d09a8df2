// The widths of records of keys and of the ready area.
ghost use Rattle.std.specs.Prelude.{◌≡◌};

/// The words of a key: its three numbers.
pub const KEY_WORDS: usize = 3;

/// The words of a ready record: two for each node, and one that together hold the ready set and the tree of the best ready cells.
pub const READY_WORDS: usize = 3;

/// The figures that the definitions mean where they name them, and that callers in C lend by. A law: it does nothing when it runs.
pub fn record_widths()
    ensures { (KEY_WORDS ≡ 3) × (READY_WORDS ≡ 3) }
{}
