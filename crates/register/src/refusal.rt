// Why a call stops (document 01, "Where each call may stop"), with the paper's number of each reason.
ghost use Rattle.std.specs.Prelude.{◌≡◌};
ghost use Rattle.register.specs.Answers.{number_of, marks_of, of_mark, of_misfit};
ghost use Rattle.register.specs.declared.refusal.Refusal.TheVariants.{Unsound, Crossed as BoxCrossed};

use geometry::{Crossed, MarkError};
use sizes::Misfit;
use table::damage::Damaged;

#[derive(Clone, Copy, PartialEq, Eq)]
pub enum Refusal {
    Capacity,
    ShortTable,
    NotTable,
    Unsound,
    Outside,
    Crossed,
    Full,
    Present,
    Absent,
    // The marks that the box holds, more than a lent list has room for.
    ShortList(u32),
    Ungraded,
}

impl Refusal {
    pub fn number(self) -> u32
        ensures { result ≡ number_of self }
    {
        match self {
            Refusal::Capacity => 1,
            Refusal::ShortTable => 2,
            Refusal::NotTable => 3,
            Refusal::Unsound => 4,
            Refusal::Outside => 5,
            Refusal::Crossed => 6,
            Refusal::Full => 7,
            Refusal::Present => 8,
            Refusal::Absent => 9,
            Refusal::ShortList(_) => 10,
            Refusal::Ungraded => 12,
        }
    }

    // The k that number 10 gives; a refusal gives 0 for every other figure.
    pub fn marks(self) -> u32
        ensures { result ≡ marks_of self }
    {
        match self {
            Refusal::ShortList(marks) => marks,
            _ => 0,
        }
    }
}

impl From<Damaged> for Refusal {
    ghost from_gives = { λ _ r. r ≡ Unsound };

    fn from(_: Damaged) -> Self {
        Self::Unsound
    }
}

impl From<MarkError> for Refusal {
    ghost from_gives = { λ e r. r ≡ of_mark e };

    fn from(e: MarkError) -> Self {
        match e {
            MarkError::Outside => Self::Outside,
            MarkError::Ungraded => Self::Ungraded,
        }
    }
}

impl From<Crossed> for Refusal {
    ghost from_gives = { λ _ r. r ≡ BoxCrossed };

    fn from(_: Crossed) -> Self {
        Self::Crossed
    }
}

impl From<Misfit> for Refusal {
    ghost from_gives = { λ e r. r ≡ of_misfit e };

    fn from(e: Misfit) -> Self {
        match e {
            Misfit::Capacity => Self::Capacity,
            Misfit::Short => Self::ShortTable,
        }
    }
}
