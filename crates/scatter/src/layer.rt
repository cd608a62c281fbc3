//! The scatter layer, a medium over any medium: its survey, its making, and where its lines are.

ghost use Rattle.std.specs.Prelude.{◌≡◌, ℕ, ◌+◌, ◌-◌, ◌≤◌, length, IfOk};
ghost use Rattle.medium.specs.Array.{fetched};
ghost use Rattle.medium.specs.Chain.{LayerEffect};
ghost use Rattle.medium.specs.Fits.{IsFitted};
ghost use Rattle.medium.specs.Law.{left, MadeOver};
ghost use Rattle.medium.specs.Meaning.{means};
ghost use Rattle.medium.specs.Pile.{over, scatter, paid_life, made_by};
ghost use Rattle.scatter.specs.Scatters.{scatter_survey, scatter_size, scatter_lines, scatter_place, scatter_holder};

use line::denial::Denial;
use medium::left::left;
use medium::medium::Medium;
use shuffle::shuffle::Shuffle;

/// The first no of the questions on a shuffle's span over so many lines with so much life left: 7, then 4.
pub fn survey(span: u16, count: u16, left: u32) -> Result<(), Denial>
    ensures answer { result ≡ scatter_survey span count left }
{
    if span > count {
        return Err(Denial::TooFewLines);
    }
    if left < 1 {
        return Err(Denial::LifeOutOfRange);
    }
    Ok(())
}

/// A layer whose lines lie below at the places to which a shuffle takes their numbers. It makes no copies.
#[derive(Drop)]
pub struct ScatterLayer<S, M> {
    shuffle: S,
    below: M,
    // at least 1 in a layer that was fit to be made, and 0 in an unfit one: no `Option`, since no life is what an unfit layer has
    life: u32,
    taken: u32,
    ghost within: { taken ≤ life },
}

impl<S: Shuffle, M: Medium> ScatterLayer<S, M> {
    /// A scatter over `below`, whose life is what is left there. Where the survey says no, it has no lines and life 0.
    pub fn new(shuffle: S, below: M) -> ScatterLayer<S, M>
        ensures kept { (result.shuffle ≡ shuffle) × (result.below ≡ below) }
        ensures made { MadeOver (scatter_survey (S.Shuffle.span shuffle) (length (M.Medium.lines below)) (left (means M.Medium below))) (scatter (S.Shuffle.span shuffle) (S.Shuffle.forward shuffle)) (means M.Medium below) (M.Medium.wear below) (M.Medium.pile below) (⟦<ScatterLayer<S, M> as Medium>⟧.pile result) (means ⟦<ScatterLayer<S, M> as Medium>⟧ result) (⟦<ScatterLayer<S, M> as Medium>⟧.wear result) }
        ensures fitted { IsFitted M.Medium below → IsFitted ⟦<ScatterLayer<S, M> as Medium>⟧ result }
    {
        let left = left(&below);
        let life = survey(shuffle.span(), below.count(), left).map_or(0, |()| left);
        ScatterLayer {
            shuffle,
            below,
            life,
            taken: 0,
        }
    }

    /// The place of a line in what lies below. A line that is not below the count is denied with 1.
    pub fn where_is(&self, line: u16) -> Result<u16, Denial>
        ensures answer { result ≡ scatter_place (length (⟦<ScatterLayer<S, M> as Medium>⟧.lines self.now)) (S.Shuffle.forward self.now.shuffle) line }
        ensures content { IfOk result (λ p. fetched (M.Medium.lines self.now.below) p ≡ fetched (⟦<ScatterLayer<S, M> as Medium>⟧.lines self.now) line) }
    {
        if line >= self.count() {
            return Err(Denial::NoSuchLine);
        }
        Ok(self.shuffle.forward(line))
    }

    /// The line at a place of what lies below, or none at a place past the span. A place that is not below the count below is denied with 1.
    pub fn holder(&self, place: u16) -> Result<Option<u16>, Denial>
        ensures answer { result ≡ scatter_holder (length (M.Medium.lines self.now.below)) (length (⟦<ScatterLayer<S, M> as Medium>⟧.lines self.now)) (S.Shuffle.back self.now.shuffle) place }
    {
        if place >= self.below.count() {
            return Err(Denial::NoSuchLine);
        }
        if place >= self.count() {
            return Ok(None);
        }
        Ok(Some(self.shuffle.back(place)))
    }

    /// How many copies this layer has made: none, ever.
    pub fn copies(&self) -> u32
        ensures answer { result ≡ made_by (⟦<ScatterLayer<S, M> as Medium>⟧.pile self.now) }
    {
        0
    }

    // How many lines there should be.
    fn size(&self) -> u16
        ensures { result ≡ scatter_size self.now.life (S.Shuffle.span self.now.shuffle) }
    {
        if self.life == 0 {
            return 0;
        }
        self.shuffle.span()
    }
}

impl<S: Shuffle, M: Medium> Medium for ScatterLayer<S, M> {
    type Line = M::Line;

    ghost lines = { λ m. scatter_lines m.life (S.Shuffle.span m.shuffle) (S.Shuffle.forward m.shuffle) (M.Medium.lines m.below) };

    ghost taken = { λ m. m.taken };

    ghost life = { λ m. paid_life m.life m.taken m.life (m.taken + (M.Medium.life m.below - M.Medium.taken m.below)) };

    ghost wear = { λ m. M.Medium.wear m.below };

    ghost pile = { λ m. over (scatter (scatter_size m.life (S.Shuffle.span m.shuffle)) (S.Shuffle.forward m.shuffle)) (means M.Medium m.below) (M.Medium.wear m.below) (M.Medium.pile m.below) };

    ghost memory = { λ m. M.Medium.memory m.below };

    ghost effect = { λ m i v r n. LayerEffect M.Medium m n m.below n.below (scatter (scatter_size m.life (S.Shuffle.span m.shuffle)) (S.Shuffle.forward m.shuffle)) (scatter_lines m.life (S.Shuffle.span m.shuffle) (S.Shuffle.forward m.shuffle) (M.Medium.lines m.below)) i v r };

    fn count(&self) -> u16 {
        let size = self.size();
        if size <= self.below.count() { size } else { 0 }
    }

    #[tactic(auto, using(medium::proofs::Layers::paid_yes, medium::proofs::Layers::paid_no))]
    fn life(&self) -> u32 {
        let left = left(&self.below);
        if self.life - self.taken <= left {
            self.life
        } else {
            self.taken
        }
    }

    #[tactic(auto, using(medium::proofs::Layers::paid_least))]
    fn taken(&self) -> u32 {
        self.taken
    }

    fn wear(&self) -> u64 {
        self.below.wear()
    }

    fn read(&self, line: u16) -> Result<M::Line, Denial> {
        let place = self.where_is(line)?;
        self.below.read(place)
    }

    fn write(&mut self, line: u16, value: M::Line) -> Result<u64, Denial> {
        // `self.count()` would be the count of the `&mut`, which is a medium too
        if line >= (*self).count() {
            return Err(Denial::NoSuchLine);
        }
        if self.taken >= (*self).life() {
            return Err(Denial::LifeUsed);
        }
        let toll = self.below.write(self.shuffle.forward(line), value)?;
        self.taken += 1;
        Ok(toll)
    }
}
