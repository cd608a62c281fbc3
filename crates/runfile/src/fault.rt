//! What is wrong with a run file, and where.

ghost use Rattle.std.specs.Prelude.{◌≡◌, Some};
ghost use Rattle.line.specs.Denials.{number};
ghost use Rattle.runfile.specs.Faults.{stage_letter};
ghost use Rattle.runfile.specs.Texts.{fault_text, stage_text};

use line::denial::Denial;
use std::fmt;

/// The part of a run at which a fault was found.
#[derive(Clone, Copy)]
pub enum Stage {
    /// The file's length, and its last sixteen bytes.
    Trailer,
    /// The settings.
    Settings,
    /// A request.
    Request,
    /// The making of the pile, at the layer of this height.
    Pile { height: u8 },
}

impl Stage {
    /// The letter of the stage: T, S, Q or P.
    pub fn letter(self) -> char
        ensures letter { result ≡ stage_letter self }
    {
        match self {
            Stage::Trailer => 'T',
            Stage::Settings => 'S',
            Stage::Request => 'Q',
            Stage::Pile { height: _ } => 'P',
        }
    }
}

/// A stage is shown as its letter; that of the pile is followed directly by the height.
impl fmt::Display for Stage {
    ghost output = { λ s. Some (stage_text s) };

    fn fmt<W: fmt::Write>(&self, f: &mut fmt::Formatter<W>) -> fmt::Result {
        let letter = self.letter();
        match *self {
            Stage::Pile { height } => write!(f, "{letter}{height}"),
            _ => write!(f, "{letter}"),
        }
    }
}

/// A fault of a run file.
#[derive(Clone, Copy)]
pub struct Fault {
    /// Why.
    pub denial: Denial,
    /// Where in the file, counted in bytes from its first.
    pub place: u32,
    /// The part of the run.
    pub stage: Stage,
}

impl Fault {
    /// The fault of a denial at a place of the file.
    pub fn new(denial: Denial, place: u32, stage: Stage) -> Fault
        ensures fault { result ≡ record { denial = denial; place = place; stage = stage } }
    {
        Fault {
            denial,
            place,
            stage,
        }
    }

    /// The number of the fault's denial.
    pub fn number(self) -> u8
        ensures number { result ≡ number self.denial }
    {
        self.denial.number()
    }
}

/// A fault is shown as its number, place and stage.
impl fmt::Display for Fault {
    ghost output = { λ x. Some (fault_text x) };

    fn fmt<W: fmt::Write>(&self, f: &mut fmt::Formatter<W>) -> fmt::Result {
        let denial = self.denial;
        let place = self.place;
        let stage = self.stage;
        write!(f, "file no {denial} at {place} stage {stage}")
    }
}
