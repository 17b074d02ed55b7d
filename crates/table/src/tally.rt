// What a listing has come to so far. One number, which stays in a register: 2^32 times the marks found, and the visits. No other file knows how it is packed.
ghost use Rattle.std.specs.Prelude.{◌≡◌, ◌/◌, ◌%◌};
ghost use Rattle.table.specs.Limits.{lost};
ghost use Rattle.table.specs.Tally.{visited};

use crate::limits;

#[derive(Clone, Copy)]
pub struct Tally(pub u64);

impl Tally {
    pub fn none() -> Tally
        ensures { result.0 ≡ 0 }
    {
        Tally(0)
    }

    // Of a listing that met damage.
    pub fn lost() -> Tally
        ensures { result.0 ≡ lost }
    {
        Tally(limits::LOST)
    }

    // One visit more, with w marks.
    #[tactic(auto, unfolding(crate::specs::Tally::visited))]
    pub fn take(self, w: u32) -> Tally
        ensures { result.0 ≡ visited self.0 w }
    {
        Tally(self.0.wrapping_add(4294967296 * u64::from(w) + 1))
    }

    // The arrival at a node that is opened, or of which nothing is listed.
    pub fn visit(self) -> Tally
        ensures { result.0 ≡ visited self.0 0 }
    {
        self.take(0)
    }

    pub fn visits(self) -> u32
        ensures { result ≡ self.0 % 4294967296 }
    {
        (self.0 % 4294967296) as u32
    }

    pub fn found(self) -> u32
        ensures { result ≡ self.0 / 4294967296 }
    {
        (self.0 / 4294967296) as u32
    }
}
