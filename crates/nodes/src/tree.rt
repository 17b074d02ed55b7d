// What the two kinds of tree have of their own: where their records stand, and the axis by which their marks go. What is done with an arm or a record is
// written once, for a kind T; an arm of the one kind has another type than one of the other, so the one never goes in for the other.
ghost use Rattle.std.specs.Prelude.{◌≡◌, ℕ, ◌+◌, ◌≤◌, ◌<◌, ◌^◌};
ghost use Rattle.table.specs.Layout.{record_width};

use geometry::Axis;

pub trait Tree: Copy {
    // The axis along which its marks are ordered.
    type Along: Axis;

    // Where the record of a name stands, of how many slots there are records, and where the last one ends.
    ghost place: { Self → ℕ → ℕ };

    ghost capacity: { Self → ℕ };

    ghost end: { Self → ℕ };

    fn place(self, name: u32) -> usize
        ensures is { result ≡ place self name }
        ensures small { result < 2 ^ 39 };

    fn capacity(self) -> u32
        ensures { result ≡ capacity self };

    ghost before_end: { (tree : Self) (name : ℕ) → name < capacity tree → place tree name + record_width ≤ end tree };
}
