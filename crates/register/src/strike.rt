// Strike: takes a mark out.
ghost use Rattle.std.specs.Prelude.{◌≡◌};
ghost use Rattle.model.specs.Sheet.{mark};
ghost use Rattle.model.specs.Refusals.{name_mark};
ghost use Rattle.model.specs.History as history;
ghost use Rattle.geometry.specs.Values.{mark_outcome};
ghost use Rattle.register.specs.Answers.{update_answer};
ghost use Rattle.register.specs.Mirrors.{strike_own♯};
ghost use Rattle.register.specs.Performs.{Performs, alone};

use crate::answers::Updated;
use crate::refusal::Refusal;
use crate::update::{Change, update};
use geometry::{Mark, MarkError};
use primary_search::find;
use table::header::Header;

struct Striking;

impl Change for Striking {
    ghost mirror = { strike_own♯ };

    fn change(t: &mut [u32], own: Header, m: Mark) -> Result<u32, Refusal> {
        let s = find::find(t, own.capacity, m)?.ok_or(Refusal::Absent)?;
        Ok(whole_table::strike::strike(t, own.capacity, s)?)
    }
}

// The mark that a strike names.
#[tactic(auto, unfolding(model::specs::Refusals::name_mark))]
fn named(x: u32, y: u32, tag: u32) -> Result<Mark, MarkError>
    ensures { mark_outcome result ≡ name_mark (mark x y tag 0) }
{
    let m = Mark::named(x, y, tag);
    if m.is_outside() {
        return Err(MarkError::Outside);
    }
    Ok(m)
}

pub fn strike(table: &mut [u32], x: u32, y: u32, tag: u32) -> Result<Updated, Refusal>
    ensures { Performs (history.strike (mark x y tag 0)) (alone table.old) (alone table.new) (update_answer result) }
{
    update::<Striking>(table, named(x, y, tag))
}
