// Sum and worst of grades as one figure of one word: 256 times the sum, and the worst, which is below 256. No other file knows how it is packed. The sum of
// 65,536 marks is below 2^23; on any words it goes round.
ghost use Rattle.std.specs.Prelude.{◌≡◌};
ghost use Rattle.table.specs.Grades.{graded, joined_word, sum_of, worst_of, word};

// The figure of one grade.
#[tactic(auto, unfolding(crate::specs::Grades::graded, crate::specs::Grades::word))]
pub fn of_grade(grade: u32) -> u32
    ensures { result ≡ word (graded grade) }
{
    ((257 * u64::from(grade)) % 4294967296) as u32
}

// The figure of two groups of marks together: the lesser of the two worst grades is left out of the sum.
#[tactic(auto, unfolding(crate::specs::Grades::joined_word, crate::specs::Grades::word, crate::specs::Grades::joined))]
pub fn join(p: u32, q: u32) -> u32
    ensures { result ≡ joined_word p q }
{
    let less = (p % 256).min(q % 256);
    ((u64::from(p) + u64::from(q) - u64::from(less)) % 4294967296) as u32
}

#[tactic(auto, unfolding(crate::specs::Grades::sum_of))]
pub fn sum(p: u32) -> u32
    ensures { result ≡ sum_of p }
{
    p / 256
}

#[tactic(auto, unfolding(crate::specs::Grades::worst_of))]
pub fn worst(p: u32) -> u32
    ensures { result ≡ worst_of p }
{
    p % 256
}
