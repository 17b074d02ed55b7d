// The kind of an auxiliary tree (000's secondary nodes), and the level in which its records stand.
ghost use Rattle.std.specs.Prelude.{◌≡◌, false, ◌+◌, ◌/◌, ◌≤◌, ltb, length};
ghost use Rattle.table.specs.Layout.{record_place, level_end};
ghost use Rattle.nodes.specs.Trees.{level_before_end};

use crate::arm::Node;
use crate::tree::Tree;
use geometry::AlongY;
use table::layout;

// An auxiliary tree: its records stand in a level, one after the other from the word `base` on.
#[derive(Clone, Copy)]
pub struct Secondary {
    pub base: u32,
    pub capacity: u32,
}

// The number of an auxiliary node.
pub type SecondaryNode = Node<Secondary>;

impl Tree for Secondary {
    type Along = AlongY;

    ghost place = { λ tree. record_place tree.base };

    ghost capacity = { λ tree. tree.capacity };

    ghost end = { λ tree. level_end tree.base tree.capacity };

    ghost before_end = { λ tree. level_before_end tree.base tree.capacity };

    fn place(self, name: u32) -> usize {
        (self.base as usize) + layout::RECORD * (name as usize)
    }

    fn capacity(self) -> u32 {
        self.capacity
    }
}

impl Secondary {
    // Where the records of the level end.
    pub fn level_end(self) -> usize
        ensures { result ≡ level_end self.base self.capacity }
    {
        (self.base as usize) + layout::RECORD * (self.capacity as usize)
    }

    // Whether the level is not all there.
    pub fn lacks_level(self, t: &[u32]) -> bool
        ensures is { result ≡ ltb (length t.now) (level_end self.base self.capacity) }
        ensures there { result ≡ false → level_end self.base self.capacity ≤ length t.now }
    {
        t.len() < self.level_end()
    }
}

impl Node<Secondary> {
    // Where the record of that slot stands in a level: its first word is twice an arm's words for each slot before it.
    pub fn place(self) -> usize
        ensures { result ≡ record_place 0 (self.0 / 2) }
    {
        layout::ARM * ((self.0 - self.0 % 2) as usize)
    }
}
