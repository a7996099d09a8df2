// The ready cells that a step may take: the smallest, up to a limit, are in the tree.
// `area`, `keys` and `count` come to each method beside it: waiting.rt says why the area stands in no struct, keys.rt why keys and count don't.
ghost use Rattle.std.specs.Prelude.{◌≡◌, ◌+◌, ◌-◌, ◌*◌, ◌<◌, ◌≤◌, min, length, drop};
ghost use Rattle.ordering.specs.declared.widths.TheConstants.{KEY_WORDS, READY_WORDS};
ghost use Rattle.readyset.specs.Sets.{Levels};
ghost use Rattle.ordering.specs.Areas.{Counted};
ghost use Rattle.ordering.specs.Taking.{FirstWindow};
ghost use Rattle.ordering.specs.Tree.{Tracked, Fronted};

use crate::tree::{rank, refresh};
use crate::waiting::ReadyCells;

// Of `number` ready cells `inside` are below `limit`, and in the tree.
#[derive(Clone, Copy)]
pub struct Window {
    pub limit: usize,
    pub inside: usize,
    pub number: usize,
}

impl Window {
    // The ready cells before any is in the tree, or all where the window leaves none out.
    pub fn first(count: usize, window: usize, number: usize) -> Window
        ensures { FirstWindow count number result }
    {
        let (limit, inside) = if window < number {
            (0, 0)
        } else {
            (count, number)
        };
        Window {
            limit,
            inside,
            number,
        }
    }

    // Puts the cells that a step may take into a tree.
    pub fn ranked(
        area: &mut [usize],
        keys: &[u32],
        count: usize,
        window: usize,
        cells: ReadyCells,
    ) -> Window
        requires { (64 ≤ count) × (READY_WORDS * count ≤ length area.old) × (KEY_WORDS * count ≤ length keys.now) × Levels (drop (2 * count) area.old) count × Counted count area.old cells }
        ensures { Tracked count keys.now area.new result × (result.inside ≡ min window result.number) × Fronted count area.old area.new }
    {
        let first = Window::first(count, window, cells.number);
        rank(area, keys, count, first.limit);
        first.settle(area, keys, count, window)
    }

    // The greatest cell leaves the tree.
    pub fn shrink(self, area: &mut [usize], keys: &[u32], count: usize) -> Window
        requires { Tracked count keys.now area.old self × (1 ≤ self.inside) × (KEY_WORDS * count ≤ length keys.now) }
        ensures { Tracked count keys.now area.new result × (result.inside ≡ self.inside - 1) × (result.number ≡ self.number) × Fronted count area.old area.new }
    {
        let from = 2 * count;
        let limit = readyset::last(&area[from..], count, self.limit).unwrap();
        refresh(area, keys, count, limit, limit / 64);
        Window {
            limit,
            inside: self.inside - 1,
            ..self
        }
    }

    // The next cell enters the tree.
    pub fn grow(self, area: &mut [usize], keys: &[u32], count: usize) -> Window
        requires { Tracked count keys.now area.old self × (self.inside < self.number) × (KEY_WORDS * count ≤ length keys.now) }
        ensures { Tracked count keys.now area.new result × (result.inside ≡ self.inside + 1) × (result.number ≡ self.number) × Fronted count area.old area.new }
    {
        let from = 2 * count;
        let node = readyset::next(&area[from..], count, self.limit).unwrap();
        refresh(area, keys, count, node + 1, node / 64);
        Window {
            limit: node + 1,
            inside: self.inside + 1,
            ..self
        }
    }

    // No more cells in the tree than the window has.
    pub fn narrow(self, area: &mut [usize], keys: &[u32], count: usize, window: usize) -> Window
        requires { Tracked count keys.now area.old self × (KEY_WORDS * count ≤ length keys.now) }
        ensures { Tracked count keys.now area.new result × (result.inside ≤ window) × (result.number ≡ self.number) × Fronted count area.old area.new }
    {
        let mut at = self;
        for _over in window..self.inside {
            at = at.shrink(area, keys, count);
        }
        at
    }

    // As many cells in the tree as the window has, or all that are ready.
    pub fn widen(self, area: &mut [usize], keys: &[u32], count: usize, window: usize) -> Window
        requires { Tracked count keys.now area.old self × (self.inside ≤ window) × (KEY_WORDS * count ≤ length keys.now) }
        ensures { Tracked count keys.now area.new result × (result.inside ≡ min window result.number) × (result.number ≡ self.number) × Fronted count area.old area.new }
    {
        let mut at = self;
        for _under in self.inside..window.min(self.number) {
            at = at.grow(area, keys, count);
        }
        at
    }

    // The cells in the tree are those that a step may take.
    pub fn settle(self, area: &mut [usize], keys: &[u32], count: usize, window: usize) -> Window
        requires { Tracked count keys.now area.old self × (KEY_WORDS * count ≤ length keys.now) }
        ensures { Tracked count keys.now area.new result × (result.inside ≡ min window result.number) × (result.number ≡ self.number) × Fronted count area.old area.new }
    {
        let at = self.narrow(area, keys, count, window);
        at.widen(area, keys, count, window)
    }
}
