// Open: makes of the lent words an empty table.
ghost use Rattle.std.specs.Prelude.{length};
ghost use Rattle.model.specs.History.{open_for};
ghost use Rattle.register.specs.Answers.{open_answer};
ghost use Rattle.register.specs.Performs.{Performs, alone};

use crate::refusal::Refusal;
use whole_table::empty;

pub fn open(table: &mut [u32], capacity: u32) -> Result<(), Refusal>
    ensures { Performs (open_for capacity (length table.old)) (alone table.old) (alone table.new) (open_answer result) }
{
    let own = sizes::fit(capacity, table.len())?;
    empty::empty(&mut table[..own], capacity);
    Ok(())
}
