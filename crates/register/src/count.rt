// Count: the planner's inner loop.
ghost use Rattle.std.specs.Prelude.{◌≡◌};
ghost use Rattle.model.specs.Sheet.{box};
ghost use Rattle.model.specs.History as history;
ghost use Rattle.geometry.specs.Values.{box_value};
ghost use Rattle.register.specs.Answers.{count_answer};
ghost use Rattle.register.specs.Mirrors.{OfHeader, tally_answer, count_own♯};
ghost use Rattle.register.specs.Performs.{Performs, alone};

use crate::answers::Counted;
use crate::refusal::Refusal;
use geometry::Box;
use table::damage::Damaged;
use table::grades;
use table::header::{self, Header};

// Counts in the words of a table with that header. A figure that no sound table can have is damage: more visits than the most, or more marks than are live.
// (Inline in a count and in a list: the search beneath then stays a function of its own, with its numbers in registers.)
#[inline(always)]
pub(crate) fn count_own(t: &[u32], own: Header, b: Box) -> Result<Counted, Damaged>
    requires { OfHeader own t.now }
    ensures { tally_answer result ≡ count_own♯ own.visits (box_value b) t.now }
{
    let tally = primary_search::count::count(t, own.capacity, b.x1, b.x2, b.y1, b.y2);
    let visits = tally.visits();
    let marks = tally.found();
    if own.visits < visits || own.live < marks {
        return Err(Damaged);
    }
    let grades = tally.grades();
    Ok(Counted {
        marks,
        visits,
        sum: grades::sum(grades),
        worst: grades::worst(grades),
    })
}

pub fn count(table: &[u32], x1: u32, x2: u32, y1: u32, y2: u32) -> Result<Counted, Refusal>
    ensures { Performs (history.count (box x1 x2 y1 y2)) (alone table.now) (alone table.now) (count_answer result) }
{
    let own = header::own(table).ok_or(Refusal::NotTable)?;
    let b = Box::new(x1, x2, y1, y2)?;
    Ok(count_own(&table[..own.words], own, b)?)
}
