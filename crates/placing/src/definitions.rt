// The definitions of a text once their inputs are looked up: what each reads.
ghost use Rattle.std.specs.Prelude.{◌*◌, ◌≤◌, length};
ghost use Rattle.graphs.specs.declared.TheConstants.{READS};
ghost use Rattle.placing.specs.Resolved.{source_in, Inside};

use ordering::graph::Graph;

// READS words for each definition, one for each input: 0 where no definition gives it (an input of the circuit, or no input there), else one more than the definition's number.
#[derive(Clone, Copy)]
pub struct Definitions<'a> {
    pub sources: &'a [usize],
    pub count: usize,
    ghost room: { READS * count ≤ length sources.now },
    ghost inside: { Inside sources.now count },
}

impl<'a> Graph for Definitions<'a> {
    ghost use Rattle.ordering.specs.Given.{given};
    ghost use Rattle.ordering.proofs.Given.{given-sourced};

    ghost vertices = { λ definitions. given (source_in definitions.sources.now) definitions.count };

    ghost reads = { λ definitions. source_in definitions.sources.now };

    fn count(&self) -> usize {
        self.count
    }

    // Constants and aliases too.
    fn is_cell(&self, _node: usize) -> bool {
        true
    }

    fn source(&self, edge: usize) -> Option<usize> {
        self.sources[edge - 1].checked_sub(1)
    }

    ghost sourced = { λ definitions. given-sourced (source_in definitions.sources.now) definitions.count definitions.inside };
}
