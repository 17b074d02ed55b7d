// Insertion of a mark into a table.
ghost use Rattle.std.specs.Prelude.{◌≡◌};
ghost use Rattle.geometry.specs.Values.{mark_value};
ghost use Rattle.table.specs.After.{after};
ghost use Rattle.table.specs.Damage.{figure_of};
ghost use Rattle.table.specs.Header.{OfCapacity};
ghost use Rattle.whole_table.specs.Insert.{table_insert♯};

use geometry::Mark;
use nodes::weights;
use table::damage::Damaged;
use table::runs::{self, USED};
use table::{header, slots};

// Inserts a mark that the table does not have, where it has room: the first free slot takes it. Gives the weight of the main node built afresh, or 0.
pub fn insert(t: &mut [u32], capacity: u32, m: Mark) -> Result<u32, Damaged>
    requires { OfCapacity capacity t.old }
    ensures { after (figure_of result) t.new ≡ table_insert♯ (mark_value m) t.old }
{
    let live = header::live(t);
    let s = runs::get::<USED>(t, capacity, live);
    if capacity <= s {
        return Err(Damaged);
    }
    slots::store(t, s, m);
    header::put_live(t, weights::sum(live, 1));
    primary_insert::insert::insert(t, capacity, m, s)
}
