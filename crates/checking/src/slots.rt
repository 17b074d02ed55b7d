// The slots: which hold marks, and that each stands once in `used`.
ghost use Rattle.std.specs.Prelude.{◌≡◌, ◌<◌};
ghost use Rattle.checking.specs.Slots.{live_slot♯, placed♯, inverse♯};

use table::runs::{self, PLACE, USED};

// Whether the slot s holds a mark.
pub fn is_live(t: &[u32], capacity: u32, live: u32, s: u32) -> bool
    requires { s < capacity }
    ensures { result ≡ live_slot♯ capacity live t.now s }
{
    runs::get::<PLACE>(t, capacity, s) < live
}

// Whether `place` has the slot used[i] at i.
fn placed(t: &[u32], capacity: u32, i: u32) -> bool
    ensures { result ≡ placed♯ capacity t.now i }
{
    let s = runs::get::<USED>(t, capacity, i);
    s < capacity && runs::get::<PLACE>(t, capacity, s) == i
}

// Whether `place` is the inverse of `used`.
pub fn inverse(t: &[u32], capacity: u32) -> bool
    ensures { result ≡ inverse♯ capacity t.now }
{
    (0..capacity).all(|i| placed(t, capacity, i))
}
