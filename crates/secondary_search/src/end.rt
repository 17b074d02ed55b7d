// The two ends of a box's side, of which a count goes down to one at a time. Seen from an end, what is on the side of the other one is inner, and what is on
// the other side is beyond.
ghost use Rattle.std.specs.Prelude.{◌≡◌};
ghost use Rattle.geometry.specs.Values.{box_value};
ghost use Rattle.table.specs.Figures.{arrived};
ghost use Rattle.nodes.specs.Count.{side_along};
ghost use Rattle.secondary_search.specs.End as specs;

use geometry::{Axis, Box};
use table::figures::Figures;

pub trait End {
    ghost end: { specs.End };

    // Of two things in order, the inner one and the outer one.
    fn inner_first<X: Copy>(left: X, right: X) -> (X, X)
        ensures inner { result.0 ≡ specs.inner end left right }
        ensures outer { result.1 ≡ specs.outer end left right };

    // Whether a cell along an axis reaches beyond the end of the box's side, and whether it lies there whole.
    fn reaches_beyond<A: Axis>(b: Box, least: u32, greatest: u32) -> bool
        ensures { result ≡ specs.reaches_beyond end (side_along A.along (box_value b)) least greatest };

    fn lies_beyond<A: Axis>(b: Box, least: u32, greatest: u32) -> bool
        ensures { result ≡ specs.lies_beyond end (side_along A.along (box_value b)) least greatest };

    // The arrival at a tree of weight w that lies there.
    fn skip(tally: Figures, w: u32) -> Figures
        ensures { result.0 ≡ arrived tally.0 0 0 };
}

pub struct Low;

pub struct High;

impl End for Low {
    ghost end = { specs.low };

    fn inner_first<X: Copy>(left: X, right: X) -> (X, X) {
        (right, left)
    }

    fn reaches_beyond<A: Axis>(b: Box, least: u32, greatest: u32) -> bool {
        A::before(b, least)
    }

    fn lies_beyond<A: Axis>(b: Box, least: u32, greatest: u32) -> bool {
        A::before(b, greatest)
    }

    fn skip(tally: Figures, w: u32) -> Figures {
        tally.before(w)
    }
}

impl End for High {
    ghost end = { specs.high };

    fn inner_first<X: Copy>(left: X, right: X) -> (X, X) {
        (left, right)
    }

    fn reaches_beyond<A: Axis>(b: Box, least: u32, greatest: u32) -> bool {
        A::past(b, greatest)
    }

    fn lies_beyond<A: Axis>(b: Box, least: u32, greatest: u32) -> bool {
        A::past(b, least)
    }

    fn skip(tally: Figures, w: u32) -> Figures {
        tally.past()
    }
}
