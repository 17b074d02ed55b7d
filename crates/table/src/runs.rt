// What a table of a capacity has beside its slots and records: four columns of one word for each slot. Two tell which slots hold marks, and two are runs of
// slots, scratch for building.
ghost use Rattle.std.specs.Prelude.{◌≡◌, ◌<◌, ◌≤◌, length, slice_index, slice_set};
ghost use Rattle.table.specs.Layout.{column_place, runs_end};
ghost use Rattle.table.specs.Runs.{as_slot, run_slot};

use crate::layout::{HEADER, SLOT};
use crate::words;

// used[i]: the slots, those that hold marks first.
pub const USED: u8 = 0;

// place[s]: where `used` has the slot s.
pub const PLACE: u8 = 1;

// Run A, and run B.
pub const RUN_A: u8 = 2;

pub const RUN_B: u8 = 3;

// Where a column has its word i.
pub fn at<const COLUMN: u8>(capacity: u32, i: u32) -> usize
    ensures { result ≡ column_place COLUMN capacity i }
{
    HEADER + (SLOT + usize::from(COLUMN)) * (capacity as usize) + (i as usize)
}

// The word i of a column, and 0 past the end of the words.
pub fn get<const COLUMN: u8>(t: &[u32], capacity: u32, i: u32) -> u32
    ensures { result ≡ slice_index t.now (column_place COLUMN capacity i) }
{
    words::word(t, at::<COLUMN>(capacity, i))
}

// Past the end of the words nothing is written.
pub fn put<const COLUMN: u8>(t: &mut [u32], capacity: u32, i: u32, word: u32)
    ensures { t.new ≡ slice_set t.old (column_place COLUMN capacity i) word }
{
    words::put_word(t, at::<COLUMN>(capacity, i), word);
}

// The word i of a column, which is there.
pub fn load<const COLUMN: u8>(t: &[u32], capacity: u32, i: u32) -> u32
    requires { column_place COLUMN capacity i < length t.now }
    ensures { result ≡ slice_index t.now (column_place COLUMN capacity i) }
{
    t[at::<COLUMN>(capacity, i)]
}

pub fn store<const COLUMN: u8>(t: &mut [u32], capacity: u32, i: u32, word: u32)
    requires { column_place COLUMN capacity i < length t.old }
    ensures { t.new ≡ slice_set t.old (column_place COLUMN capacity i) word }
{
    t[at::<COLUMN>(capacity, i)] = word;
}

// A word taken for a slot: one that is no slot of the table for slot 0, so that what is given has its words in the table.
#[tactic(auto, unfolding(crate::specs::Runs::as_slot))]
pub fn as_slot(capacity: u32, s: u32) -> u32
    requires { 0 < capacity }
    ensures is { result ≡ as_slot capacity s }
    ensures within { result < capacity }
{
    if s < capacity { s } else { 0 }
}

// The slot at place i of run A.
#[tactic(auto, unfolding(crate::specs::Runs::run_slot))]
pub fn run_slot(t: &[u32], capacity: u32, i: u32) -> u32
    requires { (i < capacity) × (runs_end capacity ≤ length t.now) }
    ensures is { result ≡ run_slot capacity i t.now }
    ensures within { result < capacity }
{
    as_slot(capacity, load::<RUN_A>(t, capacity, i))
}
