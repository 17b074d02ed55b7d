// What an accepted call gives; open gives nothing, and check the live marks.
use sorting::filled::Filled;

// Of an insertion or a strike: the live marks, and the weight of the main node built afresh, or 0.
#[derive(Clone, Copy, PartialEq, Eq)]
pub struct Updated {
    pub live: u32,
    pub rebuilt: u32,
}

// The marks that the box holds, the visits, the sum of their grades and the worst.
#[derive(Clone, Copy, PartialEq, Eq)]
pub struct Counted {
    pub marks: u32,
    pub visits: u32,
    pub sum: u32,
    pub worst: u32,
}

// The marks listed, the visits, and which lent list they stand in.
#[derive(Clone, Copy, PartialEq, Eq)]
pub struct Listed {
    pub marks: u32,
    pub visits: u32,
    pub which: Filled,
}
