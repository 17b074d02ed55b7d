// The header: whether the table is open, its capacity, its live marks; and the test that every call enters by
// (document 01, "Where each call may stop": 3).
ghost use Rattle.std.specs.Prelude.{◌≡◌, ◌==◌, slice_index, slice_set, MatchOption};
ghost use Rattle.table.specs.Layout.{open_place, capacity_place, live_place};
ghost use Rattle.table.specs.Header.{own_words, own_visits, HeaderOf};

use crate::{layout, words};

// Whether word 0 says that the table is open.
pub fn is_open(t: &[u32]) -> bool
    ensures { result ≡ (slice_index t.now open_place == 1) }
{
    words::word(t, layout::OPEN) == 1
}

pub fn put_open(t: &mut [u32], value: u32)
    ensures { t.new ≡ slice_set t.old open_place value }
{
    words::put_word(t, layout::OPEN, value);
}

pub fn capacity(t: &[u32]) -> u32
    ensures { result ≡ slice_index t.now capacity_place }
{
    words::word(t, layout::CAPACITY)
}

pub fn put_capacity(t: &mut [u32], capacity: u32)
    ensures { t.new ≡ slice_set t.old capacity_place capacity }
{
    words::put_word(t, layout::CAPACITY, capacity);
}

pub fn live(t: &[u32]) -> u32
    ensures { result ≡ slice_index t.now live_place }
{
    words::word(t, layout::LIVE)
}

pub fn put_live(t: &mut [u32], live: u32)
    ensures { t.new ≡ slice_set t.old live_place live }
{
    words::put_word(t, layout::LIVE, live);
}

// What the header of a table says: its capacity, its live marks, its own words, W(C) of those lent, and the most visits of a count in it.
#[derive(Clone, Copy)]
pub struct Header {
    pub capacity: u32,
    pub live: u32,
    pub words: usize,
    pub visits: u32,
}

// None where 3 applies.
#[tactic(auto, unfolding(crate::specs::Header::not_table, crate::specs::Header::own_words, crate::specs::Header::own_visits, model::specs::Sizes::W))]
pub fn own(t: &[u32]) -> Option<Header>
    ensures { MatchOption result ((own_words t.now ≡ 0) × (own_visits t.now ≡ 0)) (HeaderOf t.now) }
{
    if t.len() < layout::SHORTEST || !is_open(t) {
        return None;
    }
    let capacity = capacity(t);
    let live = live(t);
    let size = sizes::size_for(capacity)?;
    if t.len() < size.words || capacity < live {
        return None;
    }
    Some(Header {
        capacity,
        live,
        words: size.words,
        visits: size.visits,
    })
}
