//! Why a text makes no run file.

ghost use Rattle.std.specs.Prelude.{◌≡◌};
ghost use Rattle.compose.specs.declared.refusal.Refusal.TheVariants.{NoMemory, Text};
ghost use Rattle.compose.specs.Settings.{name_of};

use std::alloc::AllocError;
use std::error::Error;

/// The settings, in the order of their lines.
#[derive(Clone, Copy, Debug)]
pub enum Setting {
    Pile,
    Regions,
    Interval,
    Lines,
    N,
    Life,
    Keys,
}

impl Setting {
    /// The word with which the setting's line begins.
    pub fn name(self) -> &'static str
        ensures name { result.now ≡ name_of self }
    {
        match self {
            Setting::Pile => "pile",
            Setting::Regions => "regions",
            Setting::Interval => "interval",
            Setting::Lines => "lines",
            Setting::N => "n",
            Setting::Life => "life",
            Setting::Keys => "keys",
        }
    }
}

/// What is wrong with a line.
#[derive(Clone, Copy, Debug)]
pub enum Wrong {
    /// The line of this setting should stand here.
    Expected(Setting),
    /// After the settings, a line begins with another word than r or w.
    UnknownRequest,
    /// A pile is not named by one byte.
    NotALetter,
    /// A word is no decimal number.
    NotANumber,
    /// A number is out of the range of its field.
    OutOfRange,
    /// The line ends too early.
    MissingWord,
    /// The line goes on too long.
    ExtraWord,
    /// With this request the file would be longer than 65,536 bytes.
    TooLong,
}

/// Something that is wrong with a text.
#[derive(Clone, Copy, Debug)]
pub struct Fault {
    /// The number of the line; the first line has the number 1.
    pub line: usize,
    /// What is wrong with it.
    pub wrong: Wrong,
}

/// Why no run file is made.
#[derive(Clone, Copy, Debug)]
pub enum Refusal {
    /// There is no memory for the longest run file.
    NoMemory,
    /// The text has a fault.
    Text(Fault),
}

impl Error for Refusal {}

impl From<AllocError> for Refusal {
    ghost from_gives = { λ _ r. r ≡ NoMemory };

    fn from(_error: AllocError) -> Refusal {
        Refusal::NoMemory
    }
}

impl From<Fault> for Refusal {
    ghost from_gives = { λ f r. r ≡ Text f };

    fn from(fault: Fault) -> Refusal {
        Refusal::Text(fault)
    }
}
