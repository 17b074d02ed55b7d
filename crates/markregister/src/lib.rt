// The C interface of the register: every exported function, thin over the crates below (include/markregister.h). Each contract is the call's own: what it
// returns and the lent numbers it leaves are the answer, 0 where there is no figure to give.
#![tactic(auto)]

ghost use Rattle.std.specs.Prelude.{◌≡◌, length};
ghost use Rattle.model.specs.Sheet.{mark, box};
ghost use Rattle.model.specs.History as history;
ghost use Rattle.sizes.specs.Sizes.{words_for};
ghost use Rattle.register.specs.Answers.{check_answer, update_answer, table_given, update_given, count_given, list_given};
ghost use Rattle.register.specs.Performs.{Performs, alone, lends};

use register::answers::Updated;
use register::refusal::Refusal;

// The number of an answer, with the live marks, 0 in a refusal.
fn put_live(live: &mut u32, answer: Result<u32, Refusal>) -> u32
    ensures { table_given result live.new ≡ check_answer answer }
{
    match answer {
        Ok(marks) => {
            *live = marks;
            0
        }
        Err(refusal) => {
            *live = 0;
            refusal.number()
        }
    }
}

// The number of an insertion's or a strike's answer, with its figures, 0 in a refusal.
fn put_update(live: &mut u32, rebuilt: &mut u32, answer: Result<Updated, Refusal>) -> u32
    ensures { update_given result live.new rebuilt.new ≡ update_answer answer }
{
    match answer {
        Ok(updated) => {
            *live = updated.live;
            *rebuilt = updated.rebuilt;
            0
        }
        Err(refusal) => {
            *live = 0;
            *rebuilt = 0;
            refusal.number()
        }
    }
}

// The words of a table for a capacity; 0 for a capacity out of range.
#[unsafe(no_mangle)]
pub extern "C" fn register_words(capacity: u32) -> usize
    ensures { result ≡ words_for capacity }
{
    sizes::words(capacity)
}

#[unsafe(no_mangle)]
pub extern "C" fn register_open(table: &mut [u32], capacity: u32, live: &mut u32) -> u32
    ensures { Performs (history.open_for capacity (length table.old)) (alone table.old) (alone table.new)
        (table_given result live.new) }
{
    put_live(live, register::open::open(table, capacity).map(|()| 0))
}

#[unsafe(no_mangle)]
pub extern "C" fn register_insert(
    table: &mut [u32],
    x: u32,
    y: u32,
    tag: u32,
    grade: u32,
    live: &mut u32,
    rebuilt: &mut u32,
) -> u32
    ensures { Performs (history.insert (mark x y tag grade)) (alone table.old) (alone table.new)
        (update_given result live.new rebuilt.new) }
{
    put_update(
        live,
        rebuilt,
        register::insert::insert(table, x, y, tag, grade),
    )
}

#[unsafe(no_mangle)]
pub extern "C" fn register_strike(
    table: &mut [u32],
    x: u32,
    y: u32,
    tag: u32,
    live: &mut u32,
    rebuilt: &mut u32,
) -> u32
    ensures { Performs (history.strike (mark x y tag 0)) (alone table.old) (alone table.new)
        (update_given result live.new rebuilt.new) }
{
    put_update(live, rebuilt, register::strike::strike(table, x, y, tag))
}

#[unsafe(no_mangle)]
pub extern "C" fn register_count(
    table: &[u32],
    x1: u32,
    x2: u32,
    y1: u32,
    y2: u32,
    count: &mut u32,
    visits: &mut u32,
    sum: &mut u32,
    worst: &mut u32,
) -> u32
    ensures { Performs (history.count (box x1 x2 y1 y2)) (alone table.now) (alone table.now)
        (count_given result count.new visits.new sum.new worst.new) }
{
    match register::count::count(table, x1, x2, y1, y2) {
        Ok(counted) => {
            *count = counted.marks;
            *visits = counted.visits;
            *sum = counted.sum;
            *worst = counted.worst;
            0
        }
        Err(refusal) => {
            *count = 0;
            *visits = 0;
            *sum = 0;
            *worst = 0;
            refusal.number()
        }
    }
}

#[unsafe(no_mangle)]
pub extern "C" fn register_list(
    table: &[u32],
    x1: u32,
    x2: u32,
    y1: u32,
    y2: u32,
    first: &mut [u32],
    second: &mut [u32],
    count: &mut u32,
    visits: &mut u32,
    which: &mut u32,
) -> u32
    ensures { Performs (history.list (box x1 x2 y1 y2) (length first.old) (length second.old))
        (lends table.now first.old second.old)
        (lends table.now first.new second.new)
        (list_given (record { number = result; k = count.new; visits = visits.new; which = which.new })
        first.new second.new) }
{
    match register::list::list(table, x1, x2, y1, y2, first, second) {
        Ok(listed) => {
            *count = listed.marks;
            *visits = listed.visits;
            *which = u32::from(listed.which);
            0
        }
        Err(refusal) => {
            *count = refusal.marks();
            *visits = 0;
            *which = 0;
            refusal.number()
        }
    }
}

#[unsafe(no_mangle)]
pub extern "C" fn register_check(table: &[u32], live: &mut u32) -> u32
    ensures { Performs history.check (alone table.now) (alone table.now) (table_given result live.new) }
{
    put_live(live, register::check::check(table))
}
