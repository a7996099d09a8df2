// The lines of a joined text.
ghost use Rattle.std.specs.Prelude.{◌+◌, ◌≤◌, length};
ghost use Rattle.reading.specs.Holding.{AreasHold, StateStep};
ghost use Rattle.bench.specs.Bench.{read_line, bench_lines};
ghost use Rattle.bench.specs.Plans.{AreasHoldAfterLine, bench_reads, bench_ends};

use crate::declarations::declaration_line;
use crate::gates::gate_line;
use crate::read::Bench;
use circuit::refusals::Refusal;
use reading::format::Format;
use reading::records::{Counts, Reading};
use text::bytes::find_byte;
use text::iterators::lines_of;
use text::words::Word;

/// A line: a gate or a declaration.
#[tactic(auto, using(crate::proofs::LineLaws::cut_inside, crate::proofs::LineLaws::line_gate, crate::proofs::LineLaws::line_declaration))]
pub fn read_line(
    text: &[u8],
    line: Word,
    read: Reading,
    heads: &mut [usize; 256],
    nodes: &mut [usize],
    names: &mut [usize],
    outputs: &mut [usize],
) -> Result<Reading, Refusal>
    requires areas { AreasHold text.now heads.old nodes.old names.old outputs.old read }
    requires line_in_text { line.start + line.len ≤ length text.now }
    ensures areas { AreasHoldAfterLine text.now heads.new nodes.new names.new outputs.new read result }
    ensures step { StateStep (λ p. read_line text.now p line)
        nodes.old names.old outputs.old read nodes.new names.new outputs.new result }
{
    if let Some(cut) = find_byte(text, b'=', line) {
        let before = Word::between(line.start, cut);
        let after = Word::between(cut + 1, line.start + line.len);
        let counts = gate_line(text, before, after, read.counts, heads, nodes, names)?;
        return Ok(Reading { counts, ..read });
    }
    declaration_line(text, line, read, heads, nodes, names, outputs)
}

impl Format for Bench {
    ghost lines = { bench_lines };

    ghost reads = { bench_reads };

    ghost ends = { bench_ends };

    #[tactic(auto, unfolding(reading::specs::Reading::each, names::specs::Chains::entries))]
    fn read_lines(
        text: &[u8],
        heads: &mut [usize; 256],
        nodes: &mut [usize],
        names: &mut [usize],
        outputs: &mut [usize],
    ) -> Result<Reading, Refusal> {
        let mut read = Reading {
            counts: Counts { nodes: 0, names: 0 },
            outputs: 0,
        };
        for line in lines_of(text) {
            read = read_line(text, line, read, heads, nodes, names, outputs)?;
        }
        Ok(read)
    }
}
