// The lines of a joined text.
ghost use Rattle.std.specs.Prelude.{◌+◌, ◌≤◌, length};
ghost use Rattle.cover.specs.Rows.{rows_left, RowsOf};
ghost use Rattle.reading.specs.Holding.{AreasHold, AreasHoldAfter, StateStep};
ghost use Rattle.blif.specs.Blif.{blif_lines};
ghost use Rattle.blif.specs.Holding.{directive_at, blif_reads, blif_ends};

use crate::gates::names_line;
use crate::read::Blif;
use crate::words::{input_words, output_words};
use circuit::refusals::Refusal;
use cover::directives::Directive;
use cover::lines::{Rows, directive_line, line_words, rows_from};
use reading::format::Format;
use reading::records::{Counts, Reading};
use text::iterators::lines_of;
use text::words::Word;

/// A directive with the stretch after it, and the rows after that.
#[tactic(auto, unfolding(crate::specs::Blif::directive_step))]
pub fn read_directive(
    text: &[u8],
    directive: Directive,
    line: Word,
    rows: Rows,
    read: Reading,
    heads: &mut [usize; 256],
    nodes: &mut [usize],
    names: &mut [usize],
    outputs: &mut [usize],
) -> Result<Reading, Refusal>
    requires areas { AreasHold text.now heads.old nodes.old names.old outputs.old read }
    requires line_in_text { line.start + line.len ≤ length text.now }
    requires rows_in_text { RowsOf text.now rows }
    ensures areas { AreasHoldAfter text.now heads.new nodes.new names.new outputs.new result }
    ensures step { StateStep (directive_at text.now directive line (rows_left rows.entry))
        nodes.old names.old outputs.old read nodes.new names.new outputs.new result }
{
    match directive {
        Directive::Ignored => Ok(read),
        Directive::Inputs => {
            let counts = input_words(line_words(text, line), read.counts, heads, nodes, names)?;
            Ok(Reading { counts, ..read })
        }
        Directive::Outputs => {
            let outputs = output_words(line_words(text, line), read.outputs, outputs)?;
            Ok(Reading { outputs, ..read })
        }
        Directive::Names => {
            let counts = names_line(text, line, rows, read.counts, heads, nodes, names)?;
            Ok(Reading { counts, ..read })
        }
        Directive::Other => Err(Refusal::Unknown),
    }
}

impl Format for Blif {
    ghost lines = { blif_lines };

    ghost reads = { blif_reads };

    ghost ends = { blif_ends };

    // Every line: a directive, or a row, which follows `.names` alone (9).
    #[tactic(auto, unfolding(crate::specs::Blif::read_lines, crate::specs::Blif::line_step, crate::specs::Blif::row_next, names::specs::Chains::entries))]
    fn read_lines(
        text: &[u8],
        heads: &mut [usize; 256],
        nodes: &mut [usize],
        names: &mut [usize],
        outputs: &mut [usize],
    ) -> Result<Reading, Refusal> {
        let mut read = Reading {
            counts: Counts { nodes: 0, names: 0 },
            outputs: 0,
        };
        let mut row = false;
        let mut lines = lines_of(text);
        // A directive looks at the lines that are still to come.
        while let Some(line) = lines.next() {
            match directive_line(text, line) {
                Some((directive, rest)) => {
                    let rows = rows_from(text, lines.at);
                    read = read_directive(
                        text, directive, rest, rows, read, heads, nodes, names, outputs,
                    )?;
                    row = directive.takes_rows();
                }
                None if row => {}
                None => return Err(Refusal::Malformed),
            }
        }
        Ok(read)
    }
}
