// Marks and boxes on a sheet (document 01, "Marks, boxes, tables"), by value.
#![tactic(auto)]

ghost use Rattle.std.specs.Prelude.{◌≡◌, not};
ghost use Rattle.model.specs.Axis.{cell_inside, cell_clear};
ghost use Rattle.model.specs.Sheet.{mark, same, holds, mark_outside, grade_outside, along_x, along_y};
ghost use Rattle.model.specs.Refusals.{enter_mark, enter_box};
ghost use Rattle.geometry.specs.Values.{
  SheetAxis,
  mark_value,
  box_value,
  place,
  key_below,
  key_x,
  key_y,
  mark_outcome,
  box_outcome,
};

// A flaw of the sheet: its place in hundredths of a millimetre, a tag, and a grade, which is no part of its sameness.
#[derive(Clone, Copy)]
pub struct Mark {
    pub x: u32,
    pub y: u32,
    pub tag: u32,
    pub grade: u32,
}

// Why four words make no mark: the refusals 5 (document 01) and 12 (R-1, "checked after 5").
#[derive(Clone, Copy, PartialEq, Eq)]
pub enum MarkError {
    Outside,
    Ungraded,
}

// What an order compares: the first coordinate, then the second, then the tag.
#[derive(Clone, Copy)]
struct Key {
    major: u32,
    minor: u32,
    tag: u32,
}

impl Key {
    // The place as one number (R-5). The second coordinate is a word, so where the first ones differ they decide.
    fn place(self) -> u64
        ensures { result ≡ place self }
    {
        4294967296 * u64::from(self.major) + u64::from(self.minor)
    }

    // For both orders: two places are compared here and in `Mark::same`, by their numbers. Why in this form, and not a derived order: docs/DECISIONS.md.
    fn below(self, other: Key) -> bool
        ensures { result ≡ key_below self other }
    {
        let here = self.place();
        let there = other.place();
        here < there || here == there && self.tag < other.tag
    }
}

impl Mark {
    // The largest coordinate.
    pub const MAX: u32 = 999999;

    // The worst grade.
    pub const WORST: u32 = 100;

    #[tactic(auto, unfolding(model::specs::Refusals::enter_mark))]
    pub fn new(x: u32, y: u32, tag: u32, grade: u32) -> Result<Mark, MarkError>
        ensures { mark_outcome result ≡ enter_mark (mark x y tag grade) }
    {
        let m = Mark { x, y, tag, grade };
        if m.is_outside() {
            return Err(MarkError::Outside);
        }
        if m.is_ungraded() {
            return Err(MarkError::Ungraded);
        }
        Ok(m)
    }

    // The mark that a strike names, by x, y and tag: no order and no sameness looks at its grade.
    pub fn named(x: u32, y: u32, tag: u32) -> Mark
        ensures { mark_value result ≡ mark x y tag 0 }
    {
        Mark {
            x,
            y,
            tag,
            grade: 0,
        }
    }

    // Whether the grade is 0 or beyond the worst.
    #[tactic(auto, unfolding(model::specs::Sheet::grade_outside))]
    pub fn is_ungraded(self) -> bool
        ensures { result ≡ grade_outside (mark_value self) }
    {
        self.grade < 1 || Self::WORST < self.grade
    }

    // Whether x or y is beyond the largest coordinate.
    #[tactic(auto, unfolding(model::specs::Sheet::mark_outside))]
    pub fn is_outside(self) -> bool
        ensures { result ≡ mark_outside (mark_value self) }
    {
        Self::MAX < self.x || Self::MAX < self.y
    }

    // Not derived: a mark's grade is no part of its sameness (R-1). The place goes by its number, as in the orders (R-5).
    pub fn same(self, other: Mark) -> bool
        ensures { result ≡ same (mark_value self) (mark_value other) }
    {
        (AlongX::key(self).place() == AlongX::key(other).place()) & (self.tag == other.tag)
    }
}

// A pane: both sides with their low ends and without their high ones, so that panes that share a cut share no mark (R-2).
#[derive(Clone, Copy)]
pub struct Box {
    pub x1: u32,
    pub x2: u32,
    pub y1: u32,
    pub y2: u32,
}

// Why four words make no box: document 01's refusal 6.
#[derive(Clone, Copy, PartialEq, Eq)]
pub struct Crossed;

impl Box {
    #[tactic(auto, unfolding(model::specs::Refusals::enter_box, model::specs::Sheet::box_crossed))]
    pub fn new(x1: u32, x2: u32, y1: u32, y2: u32) -> Result<Box, Crossed>
        ensures { box_outcome result ≡ enter_box (record { x1 = x1; x2 = x2; y1 = y1; y2 = y2 }) }
    {
        if x2 < x1 || y2 < y1 {
            return Err(Crossed);
        }
        Ok(Box { x1, x2, y1, y2 })
    }

    // A place is a cell of one coordinate along each axis.
    #[tactic(auto, unfolding(model::specs::Sheet::holds))]
    pub fn holds(self, m: Mark) -> bool
        ensures { result ≡ holds (box_value self) (mark_value m) }
    {
        AlongX::inside(self, m.x, m.x) && AlongY::inside(self, m.y, m.y)
    }
}

// What a tree goes by, of either kind: its order of marks, a mark's coordinate, and the ends of a box's side along it.
pub trait Axis {
    ghost along: { SheetAxis };

    fn below(m: Mark, other: Mark) -> bool
        ensures { result ≡ along.below (mark_value m) (mark_value other) };

    fn at(m: Mark) -> u32
        ensures { result ≡ along.at (mark_value m) };

    // A coordinate lies before the box's side. The four ends are compared in this function and the next, and nowhere else.
    fn before(b: Box, v: u32) -> bool
        ensures { result ≡ not (along.from_low (box_value b) v) };

    // A coordinate lies past that side, or on its high end.
    fn past(b: Box, v: u32) -> bool
        ensures { result ≡ not (along.to_high (box_value b) v) };

    // A cell from least to greatest lies inside the box's side.
    final fn inside(b: Box, least: u32, greatest: u32) -> bool
        ensures { result ≡ cell_inside along (box_value b) least greatest }
    {
        !Self::before(b, least) && !Self::past(b, greatest)
    }

    // A cell lies clear of that side.
    final fn clear(b: Box, least: u32, greatest: u32) -> bool
        ensures { result ≡ cell_clear along (box_value b) least greatest }
    {
        Self::before(b, greatest) || Self::past(b, least)
    }
}

// By x, y, tag: the order of the main tree and of a list.
#[derive(Clone, Copy)]
pub struct AlongX;

impl AlongX {
    fn key(m: Mark) -> Key
        ensures { result ≡ key_x m }
    {
        Key {
            major: m.x,
            minor: m.y,
            tag: m.tag,
        }
    }
}

#[tactic(auto, unfolding(model::specs::Sheet::below_x, crate::specs::Values::key_below, model::specs::Sheet::from_x1, model::specs::Sheet::to_x2))]
impl Axis for AlongX {
    ghost along = { along_x };

    fn below(m: Mark, other: Mark) -> bool {
        AlongX::key(m).below(AlongX::key(other))
    }

    fn at(m: Mark) -> u32 {
        m.x
    }

    fn before(b: Box, v: u32) -> bool {
        v < b.x1
    }

    fn past(b: Box, v: u32) -> bool {
        b.x2 <= v
    }
}

// By y, x, tag: the order of an auxiliary tree.
#[derive(Clone, Copy)]
pub struct AlongY;

impl AlongY {
    fn key(m: Mark) -> Key
        ensures { result ≡ key_y m }
    {
        Key {
            major: m.y,
            minor: m.x,
            tag: m.tag,
        }
    }
}

#[tactic(auto, unfolding(model::specs::Sheet::below_y, crate::specs::Values::key_below, model::specs::Sheet::from_y1, model::specs::Sheet::to_y2))]
impl Axis for AlongY {
    ghost along = { along_y };

    fn below(m: Mark, other: Mark) -> bool {
        AlongY::key(m).below(AlongY::key(other))
    }

    fn at(m: Mark) -> u32 {
        m.y
    }

    fn before(b: Box, v: u32) -> bool {
        v < b.y1
    }

    fn past(b: Box, v: u32) -> bool {
        b.y2 <= v
    }
}
