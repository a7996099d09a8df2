// The answer of a cell by the filling rule, over any number of inputs: its table is folded by each value in turn.
ghost use Rattle.std.specs.Prelude.{◌≡◌, ◌<◌, ◌≤◌, length};
ghost use Rattle.cells.specs.Cells.{cell_rule};
ghost use Rattle.cells.specs.Folding.{Narrows};

use crate::{MOST_INPUTS, UNKNOWN};

/// The entries that the values read so far leave open, at the index of the values that are left: of `all`, an entry is 1 where every filling of the unknown
/// values read picks 1, of `some` where one of the fillings does. Bits above these entries are of no meaning.
#[derive(Clone, Copy)]
struct Entries {
    all: usize,
    some: usize,
}

/// The entries that one more value leaves open, half as many: those from `half` on where it is 1, those before where it is 0, and both where it is unknown.
fn narrowed(left: Entries, value: u8, half: usize) -> Entries
    requires { half < 64 }
    ensures { Narrows left.all left.some value half result.all result.some }
{
    match value {
        0 => left,
        1 => Entries {
            all: left.all >> half,
            some: left.some >> half,
        },
        _ => Entries {
            all: left.all & (left.all >> half),
            some: left.some | (left.some >> half),
        },
    }
}

/// The answer of a cell: the entry that every filling of its unknown values picks, else unknown. A value above 1 is unknown.
pub fn cell_value(table: usize, values: &[u8]) -> u8
    requires { length values.now ≤ MOST_INPUTS }
    ensures { result ≡ cell_rule table values.now }
{
    let mut left = Entries {
        all: table,
        some: table,
    };
    let mut half = 1 << values.len();
    for value in values {
        half /= 2;
        left = narrowed(left, *value, half);
    }
    if left.all & 1 == 1 {
        return 1;
    }
    if left.some & 1 == 0 {
        return 0;
    }
    UNKNOWN
}
