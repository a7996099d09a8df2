// The answers of cells with two inputs, from a fixed table.
ghost use Rattle.std.specs.Prelude.{[], ◌∷◌, ◌≡◌, ◌<◌};
ghost use Rattle.cells.specs.Cells.{cell_rule, AnswersRight};

use crate::UNKNOWN;

/// The values that an input may have: 0, 1 and the unknown.
const VALUES: usize = 3;

/// The pairs of values that two inputs may have.
const PAIRS: usize = VALUES * VALUES;

/// The tables of two inputs: one for each setting of their four entries.
const PAIR_TABLES: usize = 16;

/// An answer for each of these tables and each pair of values.
const ANSWER_COUNT: usize = PAIR_TABLES * PAIRS;

/// The answers: a row for each table; in it, first value 0, 1, unknown, and of each the three second values.
#[rattlefmt::skip]
const ANSWERS: [u8; ANSWER_COUNT] = [
    0, 0, 0, 0, 0, 0, 0, 0, 0,
    1, 0, 2, 0, 0, 0, 2, 0, 2,
    0, 1, 2, 0, 0, 0, 0, 2, 2,
    1, 1, 1, 0, 0, 0, 2, 2, 2,
    0, 0, 0, 1, 0, 2, 2, 0, 2,
    1, 0, 2, 1, 0, 2, 1, 0, 2,
    0, 1, 2, 1, 0, 2, 2, 2, 2,
    1, 1, 1, 1, 0, 2, 1, 2, 2,
    0, 0, 0, 0, 1, 2, 0, 2, 2,
    1, 0, 2, 0, 1, 2, 2, 2, 2,
    0, 1, 2, 0, 1, 2, 0, 1, 2,
    1, 1, 1, 0, 1, 2, 2, 1, 2,
    0, 0, 0, 1, 1, 1, 2, 2, 2,
    1, 0, 2, 1, 1, 1, 1, 2, 2,
    0, 1, 2, 1, 1, 1, 2, 1, 2,
    1, 1, 1, 1, 1, 1, 1, 1, 1,
];

/// One test over all of them: each is the answer of the filling rule. It does nothing when it runs.
#[tactic(auto, using(crate::proofs::PairAnswers::answers_right))]
pub fn answers_right()
    ensures { AnswersRight ANSWERS }
{}

/// The answer of a cell with two inputs. A value above 1 is unknown.
pub fn pair_value(table: usize, first: u8, second: u8) -> u8
    requires { table < PAIR_TABLES }
    ensures { result ≡ cell_rule table (first ∷ second ∷ []) }
{
    let first = usize::from(first.min(UNKNOWN));
    let second = usize::from(second.min(UNKNOWN));
    ANSWERS[PAIRS * table + VALUES * first + second]
}
