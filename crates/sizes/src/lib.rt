// How many levels and words a table needs for its capacity (document 01, "Marks, boxes, tables").
#![tactic(auto)]

ghost use Rattle.std.specs.Prelude.{◌≡◌, ◌+◌, ◌*◌, ◌≤◌, true, MatchOption};
ghost use Rattle.model.specs.Refusals.{open_table};
ghost use Rattle.model.specs.Sizes.{capacity_outside};
ghost use Rattle.sizes.specs.Sizes.{levels_for, words_for, SizeOf, opening_outcome};

// The largest capacity.
pub const LARGEST_CAPACITY: u32 = 65536;

// What a capacity C of the range asks of a table: its words, W(C), and the most visits of a count in it, (4 D(C) + 1) (2 D(C) + 1).
#[derive(Clone, Copy)]
pub struct Size {
    pub words: usize,
    pub visits: u32,
}

// Why a run of words cannot be opened: the capacity is out of its range, or the run is shorter than W(C).
#[derive(Clone, Copy, PartialEq, Eq)]
pub enum Misfit {
    Capacity,
    Short,
}

// D(C), the levels of a balanced tree of C marks, by the least capacity of each level; a capacity past the largest counts as the largest.
// (The compiler makes a search of the ranges. A constant array would be copied to the stack at each use.)
pub fn levels(capacity: u32) -> u32
    ensures { result ≡ levels_for capacity }
{
    match capacity {
        0..=1 => 0,
        2 => 2,
        3 => 3,
        4 => 4,
        5 => 5,
        6..=7 => 6,
        8..=9 => 7,
        10..=13 => 8,
        14..=17 => 9,
        18..=23 => 10,
        24..=31 => 11,
        32..=42 => 12,
        43..=56 => 13,
        57..=74 => 14,
        75..=99 => 15,
        100..=133 => 16,
        134..=177 => 17,
        178..=236 => 18,
        237..=315 => 19,
        316..=420 => 20,
        421..=560 => 21,
        561..=747 => 22,
        748..=996 => 23,
        997..=1328 => 24,
        1329..=1771 => 25,
        1772..=2362 => 26,
        2363..=3149 => 27,
        3150..=4199 => 28,
        4200..=5599 => 29,
        5600..=7466 => 30,
        7467..=9954 => 31,
        9955..=13273 => 32,
        13274..=17697 => 33,
        17698..=23596 => 34,
        23597..=31462 => 35,
        31463..=41950 => 36,
        41951..=55933 => 37,
        _ => 38,
    }
}

// Whether a capacity is out of its range.
#[tactic(auto, unfolding(model::specs::Sizes::capacity_outside))]
fn is_outside(capacity: u32) -> bool
    ensures { result ≡ capacity_outside capacity }
{
    !(1..=LARGEST_CAPACITY).contains(&capacity)
}

// None for a capacity out of its range.
#[tactic(auto, using(crate::proofs::Sizes::size_laws), unfolding(model::specs::Sizes::W, crate::specs::Sizes::visits_within))]
pub fn size_for(capacity: u32) -> Option<Size>
    ensures { MatchOption result (capacity_outside capacity ≡ true) (SizeOf capacity) }
{
    if is_outside(capacity) {
        return None;
    }
    let d = levels(capacity);
    Some(Size {
        words: 64 + (capacity as usize) * (40 + 24 * (d as usize)),
        visits: (4 * d + 1) * (2 * d + 1),
    })
}

// W(C), the words of a table. A number and no Option, since C has no other form for it: the exported call promises 0 for a capacity out of its range.
pub fn words(capacity: u32) -> usize
    ensures { result ≡ words_for capacity }
{
    size_for(capacity).map_or(0, |size| size.words)
}

// The words that a table of the capacity takes of a run of `lent` words, where it can be opened.
#[tactic(auto, unfolding(model::specs::Refusals::open_table))]
pub fn fit(capacity: u32, lent: usize) -> Result<usize, Misfit>
    ensures { opening_outcome result ≡ open_table capacity lent }
{
    let size = size_for(capacity).ok_or(Misfit::Capacity)?;
    if lent < size.words {
        return Err(Misfit::Short);
    }
    Ok(size.words)
}
