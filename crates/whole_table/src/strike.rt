// Strike of a mark from a table.
ghost use Rattle.std.specs.Prelude.{◌≡◌, ◌<◌};
ghost use Rattle.table.specs.After.{after};
ghost use Rattle.table.specs.Damage.{figure_of};
ghost use Rattle.table.specs.Header.{OfCapacity};
ghost use Rattle.whole_table.specs.Strike.{free_slot♯, table_strike♯};

use nodes::weights;
use table::damage::Damaged;
use table::runs::{self, PLACE, USED};
use table::{header, slots};

// Frees slot s: it changes places in `used` with the last live slot.
fn free_slot(t: &mut [u32], s: u32)
    ensures { t.new ≡ free_slot♯ s t.old }
{
    let capacity = header::capacity(t);
    let last = weights::fewer(header::live(t));
    let i = runs::get::<PLACE>(t, capacity, s);
    let k = runs::get::<USED>(t, capacity, last);
    runs::put::<USED>(t, capacity, i, k);
    runs::put::<PLACE>(t, capacity, k, i);
    runs::put::<USED>(t, capacity, last, s);
    runs::put::<PLACE>(t, capacity, s, last);
    header::put_live(t, last);
}

// Strikes the mark that stands in slot s. Gives the weight of the main node built afresh, or 0. The slot is freed where the strike met damage too.
pub fn strike(t: &mut [u32], capacity: u32, s: u32) -> Result<u32, Damaged>
    requires { OfCapacity capacity t.old × (s < capacity) }
    ensures { after (figure_of result) t.new ≡ table_strike♯ s t.old }
{
    let m = slots::load(t, s);
    let rebuilt = primary_strike::strike::strike(t, capacity, m, s);
    free_slot(t, s);
    rebuilt
}
