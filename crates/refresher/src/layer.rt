//! The refresh layer, as a medium over any medium.

ghost use Rattle.std.specs.Prelude.{◌≡◌, ℕ, ◌+◌, ◌-◌, ◌/◌, ◌%◌, ◌<◌, ◌≤◌};
ghost use Rattle.refresh.specs.Refresh.{Bounded};
ghost use Rattle.medium.specs.Chain.{LayerEffect};
ghost use Rattle.medium.specs.Meaning.{means};
ghost use Rattle.medium.specs.Pile.{over, refresh};
ghost use Rattle.refresher.specs.Layer.{registers, refresh_lines, refresh_life, refresh_survey};

use crate::registers::{Exchange, Registers, life_for, size_for};
use line::denial::Denial;
use medium::left::left;
use medium::medium::Medium;

/// A layer that remaps the lines of the medium below under one key after another, one line with each due refresh.
#[derive(Drop)]
pub struct RefreshLayer<M> {
    below: M,
    registers: Registers,
    life: u32,
    // what the life costs below, with all the copies that it may bring
    cost: u32,
    taken: u32,
    ghost within: { taken ≤ life },
    ghost counted: { registers.due ≡ taken % registers.interval },
    ghost bounded: { Bounded registers.round registers.copies (taken / registers.interval) },
    ghost costs: { cost ≡ life + life / registers.interval + registers.size / 2 },
    ghost room: { life + life / registers.interval + registers.size / 2 ≤ 4294967295 },
}

/// The first no of the questions on a ring of so many keys, the interval, the count of lines below and the life left below: 6, then 7, then 4.
pub fn survey(ring: usize, interval: u16, count: u16, left: u32) -> Result<(), Denial>
    ensures answer { result ≡ refresh_survey ring interval count left }
{
    if !(2..=16).contains(&ring) || interval < 1 {
        return Err(Denial::SettingsOutOfRange);
    }
    let size = size_for(count);
    if size < 2 {
        return Err(Denial::TooFewLines);
    }
    if life_for(left, size, interval) < 1 {
        return Err(Denial::LifeOutOfRange);
    }
    Ok(())
}

impl<M: Medium> RefreshLayer<M> {
    ghost use Rattle.std.specs.Prelude.{◌≡◌, ℕ, ◌<◌, length, Ok, Err, IfOk};
    ghost use Rattle.line.specs.declared.denial.Denial.{Denial as Denied};
    ghost use Rattle.refresh.specs.Powers.{greatest_power};
    ghost use Rattle.refresh.specs.Refresh.{Sound, new_registers};
    ghost use Rattle.medium.specs.Array.{fetched};
    ghost use Rattle.medium.specs.Fits.{IsFitted};
    ghost use Rattle.medium.specs.Law.{left as left_of};
    ghost use Rattle.medium.specs.Pile.{made_by};
    ghost use Rattle.refresher.specs.Layer.{place_answer, holder_answer, Made, MadeUnfit};

    /// A layer over `below` that takes its keys from `ring` in turn, and refreshes one line after every `interval` writes.
    /// Where the survey says no, it has no lines and life 0.
    pub fn new(below: M, ring: &[u16], interval: u16) -> RefreshLayer<M>
        ensures kept { result.below ≡ below }
        ensures fit { refresh_survey (length ring.now) interval (length (M.Medium.lines below)) (left_of (means M.Medium below)) ≡ Ok tt → Made (new_registers (greatest_power (length (M.Medium.lines below))) interval ring.now) (means ⟦<RefreshLayer<M> as Medium>⟧ result) (means M.Medium below) (⟦<RefreshLayer<M> as Medium>⟧.wear result) (M.Medium.wear below) (⟦<RefreshLayer<M> as Medium>⟧.pile result) (M.Medium.pile below) }
        ensures unfit { (d : Denied) → refresh_survey (length ring.now) interval (length (M.Medium.lines below)) (left_of (means M.Medium below)) ≡ Err d → MadeUnfit (registers result.registers) (means ⟦<RefreshLayer<M> as Medium>⟧ result) (means M.Medium below) (⟦<RefreshLayer<M> as Medium>⟧.wear result) (M.Medium.wear below) (⟦<RefreshLayer<M> as Medium>⟧.pile result) (M.Medium.pile below) }
        ensures fitted { IsFitted M.Medium below → IsFitted ⟦<RefreshLayer<M> as Medium>⟧ result }
    {
        let count = below.count();
        let left = left(&below);
        if survey(ring.len(), interval, count, left).is_err() {
            return RefreshLayer {
                below,
                registers: Registers::unfit(),
                life: 0,
                cost: 0,
                taken: 0,
            };
        }
        let size = size_for(count);
        let life = life_for(left, size, interval);
        let registers = Registers::new(size, interval, ring);
        let cost = registers.cost(life);
        RefreshLayer {
            below,
            registers,
            life,
            cost,
            taken: 0,
        }
    }

    /// The place below of a line. A line that is not below the count is denied with 1.
    pub fn where_is(&self, line: u16) -> Result<u16, Denial>
        ensures answer { result ≡ place_answer (registers self.now.registers) (means M.Medium self.now.below) line }
        ensures content { IfOk result (λ p. fetched (M.Medium.lines self.now.below) p ≡ fetched (refresh_lines (registers self.now.registers) (means M.Medium self.now.below)) line) }
        ensures sound { 0 < self.now.registers.size → Sound self.now.registers.size self.now.registers.keys.items self.now.registers.round }
    {
        if line >= self.count() {
            return Err(Denial::NoSuchLine);
        }
        Ok(self.registers.place(line))
    }

    /// The line at a place below, none from the layer's size on. A place that is not below the count below is denied with 1.
    pub fn holder(&self, place: u16) -> Result<Option<u16>, Denial>
        ensures answer { result ≡ holder_answer (registers self.now.registers) (means M.Medium self.now.below) place }
        ensures sound { 0 < self.now.registers.size → Sound self.now.registers.size self.now.registers.keys.items self.now.registers.round }
    {
        if place >= self.below.count() {
            return Err(Denial::NoSuchLine);
        }
        Ok(self.registers.line_at(place))
    }

    /// How many copies the layer has made.
    pub fn copies(&self) -> u32
        ensures answer { result ≡ made_by (⟦<RefreshLayer<M> as Medium>⟧.pile self.now) }
    {
        self.registers.copies()
    }
}

impl<M: Medium> Medium for RefreshLayer<M> {
    type Line = M::Line;

    ghost lines = { λ x. refresh_lines (registers x.registers) (means M.Medium x.below) };

    ghost taken = { λ x. x.taken };

    ghost life = { λ x. refresh_life (registers x.registers) x.life x.taken (means M.Medium x.below) };

    ghost wear = { λ x. M.Medium.wear x.below };

    ghost pile = { λ x. over (refresh (registers x.registers)) (means M.Medium x.below) (M.Medium.wear x.below) (M.Medium.pile x.below) };

    ghost memory = { λ x. M.Medium.memory x.below };

    ghost effect = { λ x i v r y. LayerEffect M.Medium x y x.below y.below (refresh (registers x.registers)) (refresh_lines (registers x.registers) (means M.Medium x.below)) i v r };

    fn count(&self) -> u16 {
        let size = self.registers.size();
        if size <= self.below.count() { size } else { 0 }
    }

    #[tactic(auto, using(medium::proofs::Layers::paid_yes, medium::proofs::Layers::paid_no))]
    fn life(&self) -> u32 {
        let left = left(&self.below) as u64;
        if self.cost as u64 <= self.taken as u64 + self.registers.copies() as u64 + left {
            self.life
        } else {
            self.taken
        }
    }

    fn taken(&self) -> u32 {
        self.taken
    }

    fn wear(&self) -> u64 {
        self.below.wear()
    }

    fn read(&self, line: u16) -> Result<M::Line, Denial> {
        let place = self.where_is(line)?;
        self.below.read(place)
    }

    fn write(&mut self, line: u16, value: M::Line) -> Result<u64, Denial> {
        if line >= (*self).count() {
            return Err(Denial::NoSuchLine);
        }
        if self.taken >= (*self).life() {
            return Err(Denial::LifeUsed);
        }
        let toll = self.below.write(self.registers.place(line), value)?;
        let toll = match self.registers.exchange() {
            None => toll,
            Some(Exchange { previous, current }) => {
                // both reads come before the first write, which is into a place that the second read reads
                let mated = self.below.read(current)?;
                let moved = self.below.read(previous)?;
                let first = self.below.write(previous, mated)?;
                let second = self.below.write(current, moved)?;
                toll.wrapping_add(first).wrapping_add(second)
            }
        };
        self.registers.count_write();
        self.taken += 1;
        Ok(toll)
    }
}
