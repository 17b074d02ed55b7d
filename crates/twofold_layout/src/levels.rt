// Levels: the auxiliary trees of the main nodes of one depth have their records in one level. Sums go round at 2^32, beyond every table.
ghost use Rattle.std.specs.Prelude.{◌≡◌};
ghost use Rattle.twofold_layout.specs.Levels.{top_level, deeper};

use nodes::secondary::Secondary;
use table::layout;

// Where the level of the root begins.
#[tactic(auto, unfolding(crate::specs::Levels::top_level))]
pub fn top(capacity: u32) -> u32
    ensures { result ≡ top_level capacity }
{
    ((layout::HEADER + layout::BESIDE * (capacity as usize)) % 4294967296) as u32
}

// Where the next level begins.
#[tactic(auto, unfolding(crate::specs::Levels::deeper))]
pub fn deeper(base: u32, capacity: u32) -> u32
    ensures { result ≡ deeper base capacity }
{
    (((base as usize) + layout::LEVEL * (capacity as usize)) % 4294967296) as u32
}

// The level of the auxiliary trees one depth further down.
pub fn next(level: Secondary) -> Secondary
    ensures base { result.base ≡ deeper level.base level.capacity }
    ensures capacity { result.capacity ≡ level.capacity }
{
    Secondary {
        base: deeper(level.base, level.capacity),
        ..level
    }
}
