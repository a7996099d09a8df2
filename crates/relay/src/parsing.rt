// The readers.
ghost use Rattle.std.specs.Prelude.{length};
ghost use Rattle.bench.specs.Bench.{bench};
ghost use Rattle.blif.specs.Blif.{blif};
ghost use Rattle.bristol.specs.Bristol.{bristol};
ghost use Rattle.relay.specs.Answers.{JoinedCall, BristolCall};

use crate::answers::answer_read;
use bench::read::parse_bench;
use blif::read::parse_blif;
use bristol::reader::parse_bristol;

// A BLIF text into areas for the joined text, nodes, names and outputs; the names are a work area.
#[unsafe(no_mangle)]
pub extern "C" fn relay_parse_blif(
    text: &[u8],
    joined: &mut [u8],
    nodes: &mut [usize],
    names: &mut [usize],
    outputs: &mut [usize],
    node_count: &mut usize,
    output_count: &mut usize,
) -> usize
    ensures { JoinedCall blif text.now (length joined.old) (length nodes.old) (length names.old) (length outputs.old) result node_count.new output_count.new joined.new nodes.new names.new outputs.new }
{
    let read = parse_blif(text, joined, nodes, names, outputs);
    answer_read(read, node_count, output_count)
}

// A BENCH text, into the same areas. Written out beside BLIF's: a function that C calls has no type parameter.
#[unsafe(no_mangle)]
pub extern "C" fn relay_parse_bench(
    text: &[u8],
    joined: &mut [u8],
    nodes: &mut [usize],
    names: &mut [usize],
    outputs: &mut [usize],
    node_count: &mut usize,
    output_count: &mut usize,
) -> usize
    ensures { JoinedCall bench text.now (length joined.old) (length nodes.old) (length names.old) (length outputs.old) result node_count.new output_count.new joined.new nodes.new names.new outputs.new }
{
    let read = parse_bench(text, joined, nodes, names, outputs);
    answer_read(read, node_count, output_count)
}

// A Bristol text into areas for nodes, outputs and wires; the wires are a work area.
#[unsafe(no_mangle)]
pub extern "C" fn relay_parse_bristol(
    text: &[u8],
    nodes: &mut [usize],
    outputs: &mut [usize],
    wires: &mut [usize],
    node_count: &mut usize,
    output_count: &mut usize,
) -> usize
    ensures { BristolCall (bristol text.now (length nodes.old) (length outputs.old) (length wires.old)) result node_count.new output_count.new nodes.new outputs.new wires.new }
{
    let read = parse_bristol(text, nodes, outputs, wires);
    answer_read(read, node_count, output_count)
}
