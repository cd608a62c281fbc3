//! The byte medium: lent bytes, and beside them the count of each line's writes. Every toll is 1.

ghost use Rattle.std.specs.Prelude.{◌≡◌, ℕ, ◌+◌, ◌*◌, ◌≤◌, List, [], ◌∷◌, length, take, drop, replicate, if◌then◌else◌, Ok, Err, sum, nat_le};
ghost use Rattle.line.specs.declared.denial.Denial.{Denial as Denied};
ghost use Rattle.line.specs.declared.denial.Denial.TheVariants.{NoSuchLine};
ghost use Rattle.medium.specs.Array.{Wrote};
ghost use Rattle.medium.specs.Meaning.{means};
ghost use Rattle.medium.specs.Pile.{bottom, Served};
ghost use Rattle.medium.specs.declared.call.Call.TheVariants.{Write};
ghost use Rattle.media.specs.Bytes.{byte_survey, lines_in, byte_array, bytes_after, counts_after};
ghost use Rattle.media.specs.Cells.{MadeAs};

use crate::cells;
use line::denial::Denial;
use line::kind::LineKind;
use medium::medium::Medium;
use std::marker::PhantomData;

/// A medium whose lines lie in lent bytes, one after another, each with a count of its writes.
#[derive(Drop)]
pub struct ByteMedium<'a, K> {
    bytes: &'a mut [u8],
    // lent beside the bytes, as a rule of the project has it: whoever lends them reads them afterwards
    counts: &'a mut [u32],
    life: u32,
    // the sum of the counts, kept so that a write need not add them up
    taken: u32,
    kind: PhantomData<K>,
    ghost few: { length counts.now ≤ 4096 },
    ghost sums: { sum counts.now ≡ taken },
    ghost within: { taken ≤ life },
}

/// The first no of the questions on so many counts, so long a life and so many bytes: 3, then 4, then 5.
pub fn survey<K: LineKind>(count: usize, life: u64, bytes: usize) -> Result<(), Denial>
    ensures { result ≡ byte_survey K.LineKind.width count life bytes }
{
    cells::survey(count, life)?;
    if bytes != count * K::width() {
        return Err(Denial::WrongLength);
    }
    Ok(())
}

impl<'a, K: LineKind> ByteMedium<'a, K> {
    /// A medium of the lines in `bytes`, with each count set to 0 and none of its life used.
    /// Where the survey says no, it has no lines, life 0 and none of the memory, all of which stays unaltered.
    pub fn new(bytes: &'a mut [u8], counts: &'a mut [u32], life: u64) -> ByteMedium<'a, K>
        ensures fit { byte_survey K.LineKind.width (length counts.old) life (length bytes.old) ≡ Ok tt → (result.bytes.now ≡ bytes.old) × (result.counts.now ≡ replicate (length counts.old) 0) × (result.life ≡ life) × (result.bytes.ghost_name ≡ bytes.entry.ghost_name) × (result.counts.ghost_name ≡ counts.entry.ghost_name) }
        ensures unfit { (d : Denied) → byte_survey K.LineKind.width (length counts.old) life (length bytes.old) ≡ Err d → (result.bytes.now ≡ []) × (result.counts.now ≡ []) × (result.life ≡ 0) }
        ensures means { MadeAs (byte_survey K.LineKind.width (length counts.old) life (length bytes.old)) (byte_array K.LineKind.reading K.LineKind.width bytes.old (replicate (length counts.old) 0) life) (means ⟦<ByteMedium<'a, K> as Medium>⟧ result) (⟦<ByteMedium<'a, K> as Medium>⟧.wear result) }
    {
        if survey::<K>(counts.len(), life, bytes.len()).is_err() {
            return ByteMedium {
                bytes: &mut [],
                counts: &mut [],
                life: 0,
                taken: 0,
                kind: PhantomData,
            };
        }
        counts.fill(0);
        ByteMedium {
            bytes,
            counts,
            life: life as u32,
            taken: 0,
            kind: PhantomData,
        }
    }
}

impl<'a, K: LineKind> Medium for ByteMedium<'a, K> {
    type Line = K;

    ghost lines = { λ m. lines_in K.LineKind.reading K.LineKind.width (length m.counts.now) m.bytes.now };

    ghost taken = { λ m. sum m.counts.now };

    ghost life = { λ m. m.life };

    ghost wear = { λ m. sum m.counts.now };

    ghost pile = { λ _. bottom };

    ghost memory = { λ m. m.bytes.ghost_name ∷ m.counts.ghost_name ∷ [] };

    ghost effect = { λ m i v r n. (n.bytes.now ≡ bytes_after r m.bytes.now (i * K.LineKind.width) (K.LineKind.writing v)) × (n.counts.now ≡ counts_after r m.counts.now i) };

    fn count(&self) -> u16 {
        let count = self.counts.len();
        if self.bytes.len() == count * K::width() {
            count as u16
        } else {
            0
        }
    }

    fn life(&self) -> u32 {
        self.life
    }

    fn taken(&self) -> u32 {
        self.taken
    }

    fn wear(&self) -> u64 {
        self.taken as u64
    }

    fn read(&self, line: u16) -> Result<K, Denial> {
        if line >= self.count() {
            return Err(Denial::NoSuchLine);
        }
        let width = K::width();
        let at = line as usize * width;
        K::read_from(&self.bytes[at..at + width])
    }

    fn write(&mut self, line: u16, value: K) -> Result<u64, Denial> {
        if line >= (*self).count() {
            return Err(Denial::NoSuchLine);
        }
        if self.taken >= self.life {
            return Err(Denial::LifeUsed);
        }
        let width = K::width();
        let at = line as usize * width;
        value.write_to(&mut self.bytes[at..at + width])?;
        self.counts[line as usize] += 1;
        self.taken += 1;
        Ok(1)
    }
}
