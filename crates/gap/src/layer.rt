//! The layer of gap regions.

ghost use Rattle.std.specs.Prelude.{◌≡◌, ◌+◌, ◌-◌, ◌*◌, ◌/◌, ◌^◌, ◌<◌, ◌≤◌, length, Ok, Err, IfOk};
ghost use Rattle.line.specs.declared.denial.Denial.{Denial as Denied};
ghost use Rattle.startgap.specs.Regions.{GapsSound, total_due, new_gaps, region_size};
ghost use Rattle.medium.specs.Array.{fetched};
ghost use Rattle.medium.specs.Chain.{LayerEffect};
ghost use Rattle.medium.specs.Fits.{IsFitted};
ghost use Rattle.medium.specs.Law.{left};
ghost use Rattle.medium.specs.Meaning.{means};
ghost use Rattle.medium.specs.Pile.{gaps, over};
ghost use Rattle.gap.specs.Regions.{gap_lines, gap_life, gap_survey, place_answer, holder_answer, Made, MadeUnfit};
ghost use Rattle.gap.specs.Registers.{registers};

use crate::regions::{Move, Regions};
use line::denial::Denial;
use medium::left::left;
use medium::medium::Medium;
use startgap::life::life;

/// Regions of lines over a medium, each with one place that holds no line: its gap. After each `interval` writes to a region one of its
/// lines moves into the gap, so that writes to one line wear all places of the region.
#[derive(Drop)]
pub struct GapLayer<M> {
    below: M,
    regions: Regions,
    life: u32,
    taken: u32,
    ghost within: { taken ≤ life },
    // each copy came after `interval` writes
    ghost counted: { regions.copies * regions.interval + total_due regions.rows ≡ taken },
}

/// The first no of the questions on a layer of that many regions, which move after each `interval` writes, over that many lines with
/// `left` writes left: are there 1 to 16 regions, and is the interval at least 1 (else 6)? Are there two lines for each region (else 7)?
/// Is the life at least 1 (else 4)?
pub fn survey(regions: u16, interval: u16, count: u16, left: u32) -> Result<(), Denial>
    ensures { result ≡ gap_survey regions interval count left }
{
    if !(1..=16).contains(&regions) || interval < 1 {
        return Err(Denial::SettingsOutOfRange);
    }
    if count < 2 * regions {
        return Err(Denial::TooFewLines);
    }
    if life(left, interval) < 1 {
        return Err(Denial::LifeOutOfRange);
    }
    Ok(())
}

impl<M: Medium> GapLayer<M> {
    /// A layer of that many regions over `below`, each of which moves after each `interval` writes to it.
    /// Where the survey says no, it has no lines and life 0.
    pub fn new(below: M, regions: u16, interval: u16) -> GapLayer<M>
        ensures kept { result.below ≡ below }
        ensures fit { gap_survey regions interval (length (M.Medium.lines below)) (left (means M.Medium below)) ≡ Ok tt → Made (new_gaps regions (region_size (length (M.Medium.lines below)) regions) interval) (means ⟦<GapLayer<M> as Medium>⟧ result) (⟦<GapLayer<M> as Medium>⟧.wear result) (⟦<GapLayer<M> as Medium>⟧.pile result) (means M.Medium below) (M.Medium.wear below) (M.Medium.pile below) }
        ensures unfit { (d : Denied) → gap_survey regions interval (length (M.Medium.lines below)) (left (means M.Medium below)) ≡ Err d → MadeUnfit (registers result.regions) (means ⟦<GapLayer<M> as Medium>⟧ result) (⟦<GapLayer<M> as Medium>⟧.wear result) (⟦<GapLayer<M> as Medium>⟧.pile result) (means M.Medium below) (M.Medium.wear below) (M.Medium.pile below) }
        ensures fitted { IsFitted M.Medium below → IsFitted ⟦<GapLayer<M> as Medium>⟧ result }
    {
        let count = below.count();
        let left = left(&below);
        if survey(regions, interval, count, left).is_err() {
            return GapLayer {
                below,
                regions: Regions::none(),
                life: 0,
                taken: 0,
            };
        }
        GapLayer {
            below,
            regions: Regions::new(regions, count / regions - 1, interval),
            life: life(left, interval),
            taken: 0,
        }
    }

    /// The place below of a line. A number not below the layer's count is denied with 1.
    #[tactic(auto, using(crate::proofs::Fields::sound_of, crate::proofs::Fields::line_below, crate::proofs::Fields::line_read))]
    pub fn where_is(&self, line: u16) -> Result<u16, Denial>
        ensures answer { result ≡ place_answer (registers self.now.regions) (length (⟦<GapLayer<M> as Medium>⟧.lines self.now)) line }
        ensures content { IfOk result (λ p. fetched (M.Medium.lines self.now.below) p ≡ fetched (⟦<GapLayer<M> as Medium>⟧.lines self.now) line) }
        ensures sound { GapsSound (registers self.now.regions) }
    {
        if line >= self.count() {
            return Err(Denial::NoSuchLine);
        }
        let (region, offset) = self.regions.split(line);
        Ok(self.regions.place(region, offset))
    }

    /// The line that is at a place below: none at a gap, and none at a place past the regions.
    /// A number not below the count of the medium below is denied with 1.
    #[tactic(auto, using(crate::proofs::Fields::sound_of))]
    pub fn holder(&self, place: u16) -> Result<Option<u16>, Denial>
        ensures answer { result ≡ holder_answer (registers self.now.regions) (length (M.Medium.lines self.now.below)) place }
        ensures sound { GapsSound (registers self.now.regions) }
    {
        if place >= self.below.count() {
            return Err(Denial::NoSuchLine);
        }
        Ok(self.regions.holder(place))
    }

    /// How many copies the layer has made itself since it was fitted.
    pub fn copies(&self) -> u32
        ensures answer { result ≡ (registers self.now.regions).copies }
    {
        self.regions.copies()
    }
}

impl<M: Medium> Medium for GapLayer<M> {
    type Line = M::Line;

    ghost lines = { λ x. gap_lines (registers x.regions) (M.Medium.lines x.below) };

    ghost taken = { λ x. x.taken };

    ghost life = { λ x. gap_life (registers x.regions) x.life x.taken (M.Medium.life x.below - M.Medium.taken x.below) };

    ghost wear = { λ x. M.Medium.wear x.below };

    ghost pile = { λ x. over (gaps (registers x.regions)) (means M.Medium x.below) (M.Medium.wear x.below) (M.Medium.pile x.below) };

    ghost memory = { λ x. M.Medium.memory x.below };

    ghost effect = { λ x i v r y. LayerEffect M.Medium x y x.below y.below (gaps (registers x.regions)) (gap_lines (registers x.regions) (M.Medium.lines x.below)) i v r };

    #[tactic(auto, using(crate::proofs::Fields::line_total, crate::proofs::Fields::line_none))]
    fn count(&self) -> u16 {
        if self.regions.place_count() <= self.below.count() {
            self.regions.line_count()
        } else {
            0
        }
    }

    #[tactic(auto, unfolding(medium::specs::Pile::paid_life))]
    fn life(&self) -> u32 {
        let left = left(&self.below);
        let cost = self.life as u64 + self.regions.copies_after(self.life) as u64;
        if cost <= self.taken as u64 + self.regions.copies() as u64 + left as u64 {
            self.life
        } else {
            self.taken
        }
    }

    #[tactic(auto, unfolding(medium::specs::Pile::paid_life))]
    fn taken(&self) -> u32 {
        self.taken
    }

    fn wear(&self) -> u64 {
        self.below.wear()
    }

    fn read(&self, line: u16) -> Result<M::Line, Denial> {
        let place = self.where_is(line)?;
        self.below.read(place)
    }

    #[tactic(auto, using(crate::proofs::Fields::line_below))]
    fn write(&mut self, line: u16, value: M::Line) -> Result<u64, Denial> {
        if line >= (*self).count() {
            return Err(Denial::NoSuchLine);
        }
        if self.taken >= (*self).life() {
            return Err(Denial::LifeUsed);
        }
        let (region, offset) = self.regions.split(line);
        let place = self.regions.place(region, offset);
        let toll = self.below.write(place, value)?;
        let more = match self.regions.due_move(region) {
            Some(Move { from, to }) => {
                let moved = self.below.read(from)?;
                self.below.write(to, moved)?
            }
            None => 0,
        };
        self.regions.count_write(region);
        self.taken += 1;
        Ok(toll.wrapping_add(more))
    }
}
