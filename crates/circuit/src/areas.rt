// Areas: a record stored in its place.
ghost use Rattle.std.specs.Prelude.{◌≡◌, ◌+◌, ◌*◌, ◌<◌, ◌≤◌, length, replicate};
ghost use Rattle.laws.specs.Areas.{stored, capacity};
ghost use Rattle.laws.specs.Stretches.{All};
ghost use Rattle.circuit.specs.Records.{HasWord, encode_node, encode_output};

use crate::records::{BoolNode, NODE_WORDS, OUTPUT_WORDS, Output, node_words, output_words};
use laws::MOST_RECORDS;

/// Zeros in three areas: a call that refuses leaves this in what it was lent for writing.
pub fn clear_all(first: &mut [usize], second: &mut [usize], third: &mut [usize])
    ensures { (first.new ≡ replicate (length first.old) 0) × (second.new ≡ replicate (length second.old) 0) × (third.new ≡ replicate (length third.old) 0) }
{
    first.fill(0);
    second.fill(0);
    third.fill(0);
}

/// How many records of so many words each an area of `words` words takes.
pub fn records_in(words: usize, width: usize) -> usize
    requires { 0 < width }
    ensures { result ≡ capacity width words }
{
    (words / width).min(MOST_RECORDS)
}

/// The words stored from an index on.
pub fn put(area: &mut [usize], at: usize, words: &[usize])
    requires { at + length words.now ≤ length area.old }
    ensures { area.new ≡ stored area.old at words.now }
{
    let end = at + words.len();
    area[at..end].copy_from_slice(words);
}

/// Node i, stored.
pub fn put_node(nodes: &mut [usize], i: usize, n: BoolNode)
    requires i_in_bounds { i * NODE_WORDS + NODE_WORDS ≤ length nodes.old }
    requires wires_fit { All HasWord n.wires }
    ensures { nodes.new ≡ stored nodes.old (i * NODE_WORDS) (encode_node n) }
{
    let words = node_words(n);
    put(nodes, i * NODE_WORDS, &words);
}

/// Output j, stored.
pub fn put_output(outputs: &mut [usize], j: usize, o: Output)
    requires j_in_bounds { j * OUTPUT_WORDS + OUTPUT_WORDS ≤ length outputs.old }
    requires wire_fits { HasWord o.wire }
    ensures { outputs.new ≡ stored outputs.old (j * OUTPUT_WORDS) (encode_output o) }
{
    let words = output_words(o);
    put(outputs, j * OUTPUT_WORDS, &words);
}
