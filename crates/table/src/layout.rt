// Where things stand in a table, and how many words each takes (docs/LAYOUT.md, "Words"): the same names as in specs/Layout. No other file has a number of
// the layout.

// The shortest table, of capacity 1; and the words before the slots.
pub const SHORTEST: usize = 104;

pub const HEADER: usize = 64;

// Whether the table is open, its capacity, its live marks, and the arm of the main tree's root.
pub const OPEN: usize = 0;

pub const CAPACITY: usize = 1;

pub const LIVE: usize = 2;

pub const ROOT: usize = 3;

// Words of a mark, of an arm, and of a record, two arms.
pub const MARK: usize = 4;

pub const ARM: usize = 5;

pub const RECORD: usize = 10;

// Words of a slot: its mark, the record of the main node named so, the arm of that node's auxiliary tree.
pub const SLOT: usize = 19;

// Words for each slot beside the levels, and in each level.
pub const BESIDE: usize = 40;

pub const LEVEL: usize = 24;
