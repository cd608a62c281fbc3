//! The cell medium: a lent slice of values. Every toll is 1.

ghost use Rattle.std.specs.Prelude.{◌≡◌, ℕ, ◌≤◌, List, [], ◌∷◌, length, Ok, Err};
ghost use Rattle.line.specs.declared.denial.Denial.{Denial as Denied};
ghost use Rattle.medium.specs.Array.{Wrote};
ghost use Rattle.medium.specs.Meaning.{means};
ghost use Rattle.medium.specs.Pile.{bottom, Served};
ghost use Rattle.medium.specs.declared.call.Call.TheVariants.{Write};
ghost use Rattle.media.specs.Cells.{cell_survey, cell_array, cells_after, MadeAs};

use line::denial::Denial;
use medium::medium::Medium;

/// A medium whose lines are the values of a lent slice.
#[derive(Drop)]
pub struct CellMedium<'a, V> {
    cells: &'a mut [V],
    life: u32,
    taken: u32,
    ghost few: { length cells.now ≤ 4096 },
    ghost within: { taken ≤ life },
}

/// The first no of the questions on so many values and so long a life: 3, then 4.
pub fn survey(count: usize, life: u64) -> Result<(), Denial>
    ensures { result ≡ cell_survey count life }
{
    if !(1..=4096).contains(&count) {
        return Err(Denial::CountOutOfRange);
    }
    if !(1..=u64::from(u32::MAX)).contains(&life) {
        return Err(Denial::LifeOutOfRange);
    }
    Ok(())
}

impl<'a, V: Copy> CellMedium<'a, V> {
    /// A medium of the values in `cells`, none of its life used.
    /// Where the survey says no, it has no lines, life 0 and none of the memory.
    pub fn new(cells: &'a mut [V], life: u64) -> CellMedium<'a, V>
        ensures fit { cell_survey (length cells.old) life ≡ Ok tt → (result.cells.now ≡ cells.old) × (result.cells.ghost_name ≡ cells.entry.ghost_name) × (result.life ≡ life) × (result.taken ≡ 0) }
        ensures unfit { (d : Denied) → cell_survey (length cells.old) life ≡ Err d → (result.cells.now ≡ []) × (result.life ≡ 0) × (result.taken ≡ 0) }
        ensures means { MadeAs (cell_survey (length cells.old) life) (cell_array cells.old 0 life) (means ⟦<CellMedium<'a, V> as Medium>⟧ result) (⟦<CellMedium<'a, V> as Medium>⟧.wear result) }
    {
        if survey(cells.len(), life).is_err() {
            return CellMedium {
                cells: &mut [],
                life: 0,
                taken: 0,
            };
        }
        CellMedium {
            cells,
            life: life as u32,
            taken: 0,
        }
    }
}

impl<'a, V: Copy> Medium for CellMedium<'a, V> {
    type Line = V;

    ghost lines = { λ m. m.cells.now };

    ghost taken = { λ m. m.taken };

    ghost life = { λ m. m.life };

    ghost wear = { λ m. m.taken };

    ghost pile = { λ _. bottom };

    ghost memory = { λ m. m.cells.ghost_name ∷ [] };

    ghost effect = { λ m i v r n. n.cells.now ≡ cells_after r m.cells.now i v };

    fn count(&self) -> u16 {
        self.cells.len() as u16
    }

    fn life(&self) -> u32 {
        self.life
    }

    fn taken(&self) -> u32 {
        self.taken
    }

    fn wear(&self) -> u64 {
        self.taken as u64
    }

    fn read(&self, line: u16) -> Result<V, Denial> {
        self.cells
            .get(line as usize)
            .copied()
            .ok_or(Denial::NoSuchLine)
    }

    fn write(&mut self, line: u16, value: V) -> Result<u64, Denial> {
        if line >= (*self).count() {
            return Err(Denial::NoSuchLine);
        }
        if self.taken >= self.life {
            return Err(Denial::LifeUsed);
        }
        self.cells[line as usize] = value;
        self.taken += 1;
        Ok(1)
    }
}
