// The reads of the cells of node records: what each reads.
ghost use Rattle.std.specs.Prelude.{◌≡◌, ◌<◌};
ghost use Rattle.graphs.specs.declared.TheConstants.{READS};
ghost use Rattle.ordering.specs.Areas.{Sourced, entry_of};
ghost use Rattle.schedule.specs.Call.{graph_in};
ghost use Rattle.schedule.specs.Records.{wire_at, Wired, cell_read, source_of};

use circuit::nodes::Nodes;
use circuit::records::BoolWire;
use graphs::READS;
use ordering::graph::Graph;

/// The nodes of a circuit, of which every wire is a constant or one of them: so what they read is what their graph reads.
#[derive(Clone, Copy)]
pub struct Netlist<'a> {
    pub nodes: Nodes<'a>,
    ghost wired: { Wired nodes.words.now nodes.count },
    ghost sourced: { Sourced (source_of nodes.words.now) (graph_in nodes.words.now nodes.count) },
}

impl<'a> Netlist<'a> {
    /// The cell that the wire at a position of a node reads, if there is such a wire and it reads a cell.
    pub fn cell_read(&self, node: usize, position: usize) -> Option<usize>
        requires { node < self.now.nodes.count }
        ensures { entry_of result ≡ cell_read self.now.nodes.words.now (wire_at self.now.nodes.words.now node position) }
    {
        if self.nodes.wire_count(node) <= position {
            return None;
        }
        match self.nodes.wire(node, position) {
            BoolWire::Const(_) => None,
            BoolWire::Node(read) => self.nodes.is_cell(read.0).then_some(read.0),
        }
    }
}

impl<'a> Graph for Netlist<'a> {
    ghost vertices = { λ netlist. graph_in netlist.nodes.words.now netlist.nodes.count };

    ghost reads = { λ netlist. source_of netlist.nodes.words.now };

    fn count(&self) -> usize {
        self.nodes.count
    }

    fn is_cell(&self, node: usize) -> bool {
        self.nodes.is_cell(node)
    }

    #[tactic(auto, unfolding(crate::specs::Records::source_of))]
    fn source(&self, edge: usize) -> Option<usize> {
        self.cell_read((edge - 1) / READS, (edge - 1) % READS)
    }

    ghost sourced = { λ netlist. netlist.sourced };
}
