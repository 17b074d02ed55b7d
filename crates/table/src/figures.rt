// What a count has come to so far. One number, which stays in a register: 2^47 times the marks found, 2^31 times the visits, and the figure of the grades
// (`grades`). The figures of a sound table fill their places; on any words they run into each other. No other file knows how they are packed.
ghost use Rattle.std.specs.Prelude.{◌≡◌};
ghost use Rattle.table.specs.Limits.{lost_count};
ghost use Rattle.table.specs.Figures.{arrived, found_in, visits_in, grades_in};

use crate::limits;

#[derive(Clone, Copy)]
pub struct Figures(pub u64);

impl Figures {
    pub fn none() -> Figures
        ensures { result.0 ≡ 0 }
    {
        Figures(0)
    }

    // Of a count that met damage.
    pub fn lost() -> Figures
        ensures { result.0 ≡ lost_count }
    {
        Figures(limits::LOST_COUNT)
    }

    // The arrival at a node that is opened, or of which nothing is counted.
    #[tactic(auto, unfolding(crate::specs::Figures::arrived, crate::specs::Figures::packed, crate::specs::Grades::joined))]
    pub fn visit(self) -> Figures
        ensures { result.0 ≡ arrived self.0 0 0 }
    {
        Figures(self.0.wrapping_add(2147483648))
    }

    // At a tree of weight w inside the side, and the figure of its grades. (The lesser of the two worst grades is left out of the sum.)
    #[tactic(auto, unfolding(crate::specs::Figures::arrived, crate::specs::Figures::packed, crate::specs::Grades::joined))]
    pub fn take(self, w: u32, grades: u32) -> Figures
        ensures { result.0 ≡ arrived self.0 w grades }
    {
        let less = ((self.0 % 256) as u32).min(grades % 256);
        let visit = 140737488355328 * (u64::from(w) % 131072) + 2147483648;
        let more = visit.wrapping_add(u64::from(grades - less));
        Figures(self.0.wrapping_add(more))
    }

    // At a tree of weight w that ends before the side.
    pub fn before(self, w: u32) -> Figures
        ensures { result.0 ≡ arrived self.0 0 0 }
    {
        self.visit()
    }

    // At a tree that begins past the side.
    pub fn past(self) -> Figures
        ensures { result.0 ≡ arrived self.0 0 0 }
    {
        self.visit()
    }

    #[tactic(auto, unfolding(crate::specs::Figures::found_in))]
    pub fn found(self) -> u32
        ensures { result ≡ found_in self.0 }
    {
        (self.0 / 140737488355328) as u32
    }

    #[tactic(auto, unfolding(crate::specs::Figures::visits_in))]
    pub fn visits(self) -> u32
        ensures { result ≡ visits_in self.0 }
    {
        ((self.0 / 2147483648) % 65536) as u32
    }

    #[tactic(auto, unfolding(crate::specs::Figures::grades_in))]
    pub fn grades(self) -> u32
        ensures { result ≡ grades_in self.0 }
    {
        (self.0 % 2147483648) as u32
    }
}
