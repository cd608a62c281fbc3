//! What is proved of the registers, the mapping and the life: each theorem stands in the contract of a function.

ghost use Rattle.std.specs.Prelude.{◌≡◌, [], ◌∷◌};
ghost use Rattle.startgap.specs.Theorems.{Sizes, PlacesAndHolders, Mapping, Writes, Registers, CopiesCarry, Evenness, Lives, MarkedGaps};

use crate::life::life;

/// States how many lines each region has, and that the places of all regions lie below.
pub fn region_sizes()
    ensures sizes { Sizes }
{}

/// States that places and holders undo each other: each line is held at its place alone, and only gaps and resting places hold none.
#[tactic(auto, using(crate::proofs::Regions::places_held))]
pub fn places_and_holders()
    ensures held { PlacesAndHolders }
{}

/// States what an accepted write changes: nothing but a count, or one line's place by the copy into the gap.
#[tactic(auto, using(crate::proofs::Writes::writes))]
pub fn writes_and_moves()
    ensures writes { Writes }
{}

/// States that registers stay sound, and that a region moves once for each `interval` accepted writes to it.
#[tactic(auto, using(crate::proofs::Runs::registers))]
pub fn registers_stay_sound()
    ensures registers { Registers }
{}

/// States that each copy reads the place of the line that it moves, and writes the gap of its region.
#[tactic(auto, using(crate::proofs::Runs::all_carry))]
pub fn copies_carry_lines()
    ensures carried { CopiesCarry }
{}

/// States that in each region, over any succession of accepted writes, the moves of any two lines differ by at most one, and so do the copies into any two places.
#[tactic(auto, using(crate::proofs::Turns::evenness))]
pub fn even_moves()
    ensures even { Evenness }
{}

/// States that a place is the published one: the line plus start, modulo the region's size, and one more from the gap on.
#[tactic(auto, using(crate::proofs::Rows::mapping))]
pub fn published_mapping()
    ensures mapping { Mapping }
{}

/// States that the life is the greatest number of writes that are paid for below with the copies that follow them.
#[tactic(auto, using(crate::proofs::Paid::lives))]
pub fn lives_pay()
    ensures lives { Lives }
{}

/// The marked cases: the lives at the interval 2 over 20 and over 5 writes, and where lines of a region of 4 are after 1, 4 and 5 moves.
pub fn marked_cases() -> [u32; 2]
    ensures marked { MarkedGaps }
    ensures answer { result ≡ 13 ∷ 3 ∷ [] }
{
    [life(20, 2), life(5, 2)]
}
