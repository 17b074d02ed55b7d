// What no walk in a sound table comes to, what ends one in any other, and what is given then: the same names as in specs/Limits.

// More levels than any tree of 65,536 marks has: D(65,536) = 38, and an insertion may add one.
pub const DEEPEST: u32 = 40;

// More levels than a tree of three marks has: in a balanced tree the sibling of a leaf has no more marks.
pub const SIBLING_DEEPEST: u32 = 3;

// The tally of a listing that met damage: more visits than any budget, and so many that a few visits more leave it so.
pub const LOST: u64 = 2147483648;

// The tally of a count that met damage: 2^15 visits, more than the most.
pub const LOST_COUNT: u64 = 70368744177664;
