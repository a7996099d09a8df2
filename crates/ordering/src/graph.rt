// A graph as ordering sees it: how many nodes it has, which of them are cells, and what each read reads.
ghost use Rattle.std.specs.Prelude.{ℕ, ◌≡◌, ◌*◌, ◌<◌, ◌≤◌, List, length};
ghost use Rattle.graphs.specs.Graph.{Vertex, is_cell as IsCell};
ghost use Rattle.graphs.specs.declared.TheConstants.{READS};
ghost use Rattle.ordering.specs.Areas.{entry_of, Sourced};

pub trait Graph {
    // Its nodes.
    ghost vertices: { Self → List Vertex };

    // The cell that a read reads: 0 no cell, x + 1 the cell x. Read (node, position) is number READS × node + 1 + position.
    ghost reads: { Self → ℕ → ℕ };

    fn count(&self) -> usize
        ensures { result ≡ length (vertices self.now) };

    fn is_cell(&self, node: usize) -> bool
        requires { node < length (vertices self.now) }
        ensures { result ≡ IsCell (vertices self.now) node };

    // The cell that a read reads, if it reads one.
    fn source(&self, edge: usize) -> Option<usize>
        requires { (1 ≤ edge) × (edge ≤ READS * length (vertices self.now)) }
        ensures { entry_of result ≡ reads self.now edge };

    // The reads are those of the nodes.
    ghost sourced: { (x : Self) → Sourced (reads x) (vertices x) };
}
