// Insert: enters a mark.
ghost use Rattle.std.specs.Prelude.{◌≡◌};
ghost use Rattle.model.specs.Sheet.{mark};
ghost use Rattle.model.specs.History as history;
ghost use Rattle.register.specs.Answers.{update_answer};
ghost use Rattle.register.specs.Mirrors.{insert_own♯};
ghost use Rattle.register.specs.Performs.{Performs, alone};

use crate::answers::Updated;
use crate::refusal::Refusal;
use crate::update::{Change, update};
use geometry::Mark;
use primary_search::find;
use table::header::Header;

struct Insertion;

impl Change for Insertion {
    ghost mirror = { insert_own♯ };

    fn change(t: &mut [u32], own: Header, m: Mark) -> Result<u32, Refusal> {
        if find::find(t, own.capacity, m)?.is_some() {
            return Err(Refusal::Present);
        }
        if own.live == own.capacity {
            return Err(Refusal::Full);
        }
        Ok(whole_table::insert::insert(t, own.capacity, m)?)
    }
}

pub fn insert(table: &mut [u32], x: u32, y: u32, tag: u32, grade: u32) -> Result<Updated, Refusal>
    ensures { Performs (history.insert (mark x y tag grade)) (alone table.old) (alone table.new) (update_answer result) }
{
    update::<Insertion>(table, Mark::new(x, y, tag, grade))
}
