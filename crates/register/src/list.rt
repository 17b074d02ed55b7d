// List: the marks of a box in two lent lists.
ghost use Rattle.std.specs.Prelude.{◌≡◌, ◌≤◌, length};
ghost use Rattle.model.specs.Sheet.{box};
ghost use Rattle.model.specs.History as history;
ghost use Rattle.geometry.specs.Values.{box_value};
ghost use Rattle.table.specs.Layout.{list_place};
ghost use Rattle.register.specs.Answers.{list_answer, list_figures};
ghost use Rattle.register.specs.Mirrors.{OfHeader, ListedOwn, ListsOwn};
ghost use Rattle.register.specs.Performs.{Performs, lends};

use crate::answers::Listed;
use crate::count::count_own;
use crate::refusal::Refusal;
use geometry::Box;
use sorting::order::Order;
use sorting::sort;
use table::header::{self, Header};
use table::layout;

// Lists the k marks that a count has found. Nothing is refused from here on: a refusal changes no lent word.
fn list_marks(
    t: &[u32],
    own: Header,
    b: Box,
    first: &mut [u32],
    second: &mut [u32],
    k: u32,
) -> Listed
    requires { OfHeader own t.now × (k ≤ 65536)
        × (list_place k ≤ length first.old) × (list_place k ≤ length second.old) }
    ensures { ListedOwn (box_value b) own.visits k t.now first.old second.old
        first.new second.new (list_figures (Ok result)) }
{
    let words = layout::MARK * (k as usize);
    let most = own.visits + 2 * k;
    let tally = primary_search::list::list(t, own.capacity, b, &mut first[..words], most);
    let which = sort::sort_lists(Order::AlongX, first, second, k);
    Listed {
        marks: k,
        visits: tally.visits(),
        which,
    }
}

// Lists from the words of a table with that header. The count comes first: it tells what the lists must hold, and finds most damage before anything is written.
fn list_own(
    t: &[u32],
    own: Header,
    b: Box,
    first: &mut [u32],
    second: &mut [u32],
) -> Result<Listed, Refusal>
    requires { OfHeader own t.now }
    ensures { ListsOwn (box_value b) own.visits t.now first.old second.old
        first.new second.new (list_figures result) }
{
    let k = count_own(t, own, b)?.marks;
    let words = layout::MARK * (k as usize);
    if first.len() < words || second.len() < words {
        return Err(Refusal::ShortList(k));
    }
    Ok(list_marks(t, own, b, first, second, k))
}

pub fn list(
    table: &[u32],
    x1: u32,
    x2: u32,
    y1: u32,
    y2: u32,
    first: &mut [u32],
    second: &mut [u32],
) -> Result<Listed, Refusal>
    ensures { Performs (history.list (box x1 x2 y1 y2) (length first.old) (length second.old))
        (lends table.now first.old second.old)
        (lends table.now first.new second.new)
        (list_answer result first.new second.new) }
{
    let own = header::own(table).ok_or(Refusal::NotTable)?;
    let b = Box::new(x1, x2, y1, y2)?;
    list_own(&table[..own.words], own, b, first, second)
}
