// What an insertion and a strike have in common.
ghost use Rattle.std.specs.Prelude.{◌≡◌, List, ℕ};
ghost use Rattle.model.specs.Sheet.{Mark as MarkValue};
ghost use Rattle.model.specs.History.{Answer};
ghost use Rattle.geometry.specs.Values.{mark_value, mark_outcome};
ghost use Rattle.table.specs.After.{After, after};
ghost use Rattle.register.specs.Answers.{update_answer};
ghost use Rattle.register.specs.Mirrors.{OfHeader, settled♯, update_own};

use crate::answers::Updated;
use crate::refusal::Refusal;
use geometry::{Mark, MarkError};
use table::header::{self, Header};

// What is done with a mark that was tested, in the words of a table with that header.
pub trait Change {
    ghost mirror: { MarkValue → List ℕ → After Answer };

    // Gives the weight of the main node built afresh, or 0.
    fn change(t: &mut [u32], own: Header, m: Mark) -> Result<u32, Refusal>
        requires { OfHeader own t.old }
        ensures { settled♯ result t.new ≡ mirror (mark_value m) t.old };
}

// The answer of an update that came to this. Where the words hold no tree the table is open no longer.
fn settle(t: &mut [u32], rebuilt: Result<u32, Refusal>) -> Result<Updated, Refusal>
    ensures { after (update_answer result) t.new ≡ settled♯ rebuilt t.old }
{
    match rebuilt {
        Ok(rebuilt) => Ok(Updated {
            live: header::live(t),
            rebuilt,
        }),
        Err(refusal) => {
            if refusal == Refusal::Unsound {
                header::put_open(t, 0);
            }
            Err(refusal)
        }
    }
}

// Tests the table, then the mark, and changes the table's own words.
pub fn update<C: Change>(
    table: &mut [u32],
    entered: Result<Mark, MarkError>,
) -> Result<Updated, Refusal>
    ensures { after (update_answer result) table.new ≡ update_own (mark_outcome entered) C.mirror table.old }
{
    let own = header::own(table).ok_or(Refusal::NotTable)?;
    let m = entered?;
    let t = &mut table[..own.words];
    let rebuilt = C::change(t, own, m);
    settle(t, rebuilt)
}
