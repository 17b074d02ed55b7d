// The marks of slots and of lists.
ghost use Rattle.std.specs.Prelude.{◌≡◌, ◌+◌, ◌≤◌, length};
ghost use Rattle.geometry.specs.Values.{mark_value};
ghost use Rattle.table.specs.Layout.{mark_width, slot_place, list_place};
ghost use Rattle.table.specs.Marks.{mark_at, slot_mark, list_mark, put_mark};

use crate::layout;
use geometry::Mark;

// The mark in the words from `at` on, which are there.
#[tactic(auto, unfolding(crate::specs::Marks::mark_at))]
fn read(t: &[u32], at: usize) -> Mark
    requires { at + mark_width ≤ length t.now }
    ensures { mark_value result ≡ mark_at t.now at }
{
    Mark {
        x: t[at],
        y: t[at + 1],
        tag: t[at + 2],
        grade: t[at + 3],
    }
}

#[tactic(auto, unfolding(crate::specs::Marks::put_mark))]
fn write(t: &mut [u32], at: usize, m: Mark)
    requires { at + mark_width ≤ length t.old }
    ensures { t.new ≡ put_mark t.old at (mark_value m) }
{
    t[at] = m.x;
    t[at + 1] = m.y;
    t[at + 2] = m.tag;
    t[at + 3] = m.grade;
}

// The mark in slot s, whose words are there.
#[tactic(auto, unfolding(crate::specs::Marks::slot_mark))]
pub fn load(t: &[u32], s: u32) -> Mark
    requires { slot_place s + mark_width ≤ length t.now }
    ensures { mark_value result ≡ slot_mark t.now s }
{
    read(t, layout::HEADER + layout::SLOT * (s as usize))
}

// Puts a mark into slot s, whose words are there.
pub fn store(t: &mut [u32], s: u32, m: Mark)
    requires { slot_place s + mark_width ≤ length t.old }
    ensures { t.new ≡ put_mark t.old (slot_place s) (mark_value m) }
{
    write(t, layout::HEADER + layout::SLOT * (s as usize), m);
}

// The mark at the place k of a list, four words a mark; zeros where they are not all there.
#[tactic(auto, unfolding(crate::specs::Marks::list_mark, crate::specs::Marks::mark_at))]
pub fn listed(list: &[u32], k: u32) -> Mark
    ensures { mark_value result ≡ list_mark list.now k }
{
    let at = layout::MARK * (k as usize);
    if at + layout::MARK <= list.len() {
        read(list, at)
    } else {
        Mark {
            x: 0,
            y: 0,
            tag: 0,
            grade: 0,
        }
    }
}

// Puts a mark at the place k of a list, where its words are all there.
#[tactic(auto, unfolding(crate::specs::Marks::put_mark))]
pub fn put_listed(list: &mut [u32], k: u32, m: Mark)
    ensures { list.new ≡ put_mark list.old (list_place k) (mark_value m) }
{
    let at = layout::MARK * (k as usize);
    if at + layout::MARK <= list.len() {
        write(list, at, m);
    }
}
