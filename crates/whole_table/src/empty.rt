// Emptying a table.
ghost use Rattle.std.specs.Prelude.{◌≡◌, ◌≤◌, length};
ghost use Rattle.table.specs.Layout.{runs_end};
ghost use Rattle.whole_table.specs.Empty.{free_slots♯, empty♯};

use nodes::arm::Arm;
use nodes::primary::Primary;
use table::runs::{self, PLACE, USED};
use table::{header, layout};

// Every slot is free, and stands at its own place in `used`.
fn free_slots(t: &mut [u32], capacity: u32)
    ensures { t.new ≡ free_slots♯ capacity capacity t.old }
{
    for s in (0..capacity).rev() {
        runs::put::<USED>(t, capacity, s, s);
        runs::put::<PLACE>(t, capacity, s, s);
    }
}

// Makes of the words an open table of that capacity without marks.
pub fn empty(t: &mut [u32], capacity: u32)
    requires { runs_end capacity ≤ length t.old }
    ensures { t.new ≡ empty♯ capacity t.old }
{
    free_slots(t, capacity);
    header::put_capacity(t, capacity);
    header::put_live(t, 0);
    Arm::store(t, layout::ROOT, Arm::<Primary>::none());
    header::put_open(t, 1);
}
