// Cells: tables packed in a number, and the three-valued answers of a cell.

#![tactic(auto)]

ghost use Rattle.std.specs.Prelude.{◌≡◌, ◌<◌};
ghost use Rattle.cells.specs.Cells.{entry, set_entry};

pub mod folding;
pub mod pairs;

/// The value of a wire of which it is not known whether it is 0 or 1.
pub const UNKNOWN: u8 = 2;

/// The inputs that a cell has at most: its table, with an entry for each setting of them, fills a number of 64 bits.
pub const MOST_INPUTS: usize = 6;

/// Entry j of a packed table, 0 or 1: bit j of the number, bit 0 the lowest.
pub fn table_entry(table: usize, j: usize) -> usize
    requires { j < 64 }
    ensures { result ≡ entry table j }
{
    (table >> j) & 1
}

/// The table with entry j set to a bit, 0 or 1.
pub fn set_table_entry(table: usize, j: usize, bit: usize) -> usize
    requires { (j < 64) × (bit < 2) }
    ensures { result ≡ set_entry table j bit }
{
    (table & !(1 << j)) | (bit << j)
}
