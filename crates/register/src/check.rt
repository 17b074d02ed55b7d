// Check: whether a table is sound.
ghost use Rattle.model.specs.History as history;
ghost use Rattle.register.specs.Answers.{check_answer};
ghost use Rattle.register.specs.Performs.{Performs, alone};

use crate::refusal::Refusal;
use table::header;

// Gives the live marks.
pub fn check(table: &[u32]) -> Result<u32, Refusal>
    ensures { Performs history.check (alone table.now) (alone table.now) (check_answer result) }
{
    let own = header::own(table).ok_or(Refusal::NotTable)?;
    Ok(checking::check::check(&table[..own.words])?)
}
