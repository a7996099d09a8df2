// Cells released while the tree of the best ready cells is kept. Of `area`, `keys` and `count` beside the window window.rt says why.
ghost use Rattle.std.specs.Prelude.{◌≡◌, true, false, ◌+◌, ◌*◌, ◌<◌, ◌≤◌, length, get_or, drop};
ghost use Rattle.ordering.specs.declared.widths.TheConstants.{KEY_WORDS};
ghost use Rattle.readyset.specs.Sets.{member};
ghost use Rattle.ordering.specs.Areas.{Moved, Lowered, Releasable, Released};
ghost use Rattle.ordering.specs.Tree.{Tracked};

use crate::tree::refresh;
use crate::waiting::{ReadyCells, lower, mark_ready};
use crate::window::Window;
use graphs::READS;

impl Window {
    // One read less of the node waits; the last one makes it ready, and below the limit it enters the tree.
    pub fn lower(self, area: &mut [usize], keys: &[u32], count: usize, node: usize) -> Window
        requires { Tracked count keys.now area.old self × (node < count) × (member (drop (2 * count) area.old) node ≡ false) × (1 ≤ get_or area.old (2 * node) 0) × (KEY_WORDS * count ≤ length keys.now) }
        ensures { Lowered count area.old node area.new × Tracked count keys.now area.new result × (result.limit ≡ self.limit) }
    {
        let cells = ReadyCells {
            from: 0,
            number: self.number,
        };
        let number = lower(area, count, node, cells).number;
        if area[2 * node] != 0 {
            return self;
        }
        if self.limit <= node {
            return Window { number, ..self };
        }
        refresh(area, keys, count, self.limit, node / 64);
        Window {
            inside: self.inside + 1,
            number,
            ..self
        }
    }

    // Takes the ready node out of the set and out of the tree.
    pub fn unmark(self, area: &mut [usize], keys: &[u32], count: usize, node: usize) -> Window
        requires { Tracked count keys.now area.old self × (node < self.limit) × (member (drop (2 * count) area.old) node ≡ true) × (KEY_WORDS * count ≤ length keys.now) }
        ensures { Moved false count area.old node area.new × Tracked count keys.now area.new result }
    {
        mark_ready(area, count, node, false);
        refresh(area, keys, count, self.limit, node / 64);
        Window {
            inside: self.inside - 1,
            number: self.number - 1,
            ..self
        }
    }

    // Takes the ready node: each cell that reads it waits for one read less, and it leaves the set and the tree.
    pub fn release(
        self,
        area: &mut [usize],
        next: &[usize],
        keys: &[u32],
        count: usize,
        node: usize,
    ) -> Window
        requires { Releasable count area.old next.now node × Tracked count keys.now area.old self × (node < self.limit) × (KEY_WORDS * count ≤ length keys.now) }
        ensures { Released count area.old next.now node area.new × Tracked count keys.now area.new result }
    {
        let mut at = self;
        // No heap, and the areas are lent: a chain goes by numbers in words, each read names the next, and 0 ends it.
        let mut edge = area[2 * node + 1];
        while edge != 0 {
            at = at.lower(area, keys, count, (edge - 1) / READS);
            edge = next[edge];
        }
        at.unmark(area, keys, count, node)
    }
}
