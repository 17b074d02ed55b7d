// What is checked.
ghost use Rattle.std.specs.Prelude.{◌≡◌, ◌<◌, ◌≤◌, length};
ghost use Rattle.geometry.specs.Values.{mark_value};
ghost use Rattle.table.specs.Layout.{slots_end};
ghost use Rattle.table.specs.Marks.{slot_mark};
ghost use Rattle.checking.specs.Slots.{live_slot♯, inverse♯};

use crate::slots;
use geometry::Mark;

// The words of a table, and the capacity and the live marks that its header says.
#[derive(Clone, Copy)]
pub struct Checked<'a> {
    pub t: &'a [u32],
    pub capacity: u32,
    pub live: u32,
    pub ghost slots_there: { slots_end capacity ≤ length t.now },
}

impl<'a> Checked<'a> {
    // The mark of the slot s.
    pub fn mark(&self, s: u32) -> Mark
        requires { s < self.now.capacity }
        ensures { mark_value result ≡ slot_mark self.now.t.now s }
    {
        table::slots::load(self.t, s)
    }

    // Whether the slot s holds a mark.
    pub fn is_live(&self, s: u32) -> bool
        requires { s < self.now.capacity }
        ensures { result ≡ live_slot♯ self.now.capacity self.now.live self.now.t.now s }
    {
        slots::is_live(self.t, self.capacity, self.live, s)
    }

    // Whether `place` is the inverse of `used`.
    pub fn is_inverse(&self) -> bool
        ensures { result ≡ inverse♯ self.now.capacity self.now.t.now }
    {
        slots::inverse(self.t, self.capacity)
    }
}
