//! Why a call is denied.

ghost use Rattle.std.specs.Prelude.{◌≡◌, Some, decimal};
ghost use Rattle.line.specs.Denials.{number};

use std::fmt;

/// The first question of a call that was answered no. Its number is what users and listings see.
#[derive(Clone, Copy, PartialEq, Eq)]
pub enum Denial {
    /// The line or place number is not below the count.
    NoSuchLine = 1,
    /// Every write of the life has been taken.
    LifeUsed = 2,
    /// A medium's count is not from 1 to 4,096.
    CountOutOfRange = 3,
    /// A life is not from 1 to 4,294,967,295.
    LifeOutOfRange = 4,
    /// A buffer has not the length that is asked for.
    WrongLength = 5,
    /// A layer's or a shuffle's settings are out of their ranges.
    SettingsOutOfRange = 6,
    /// There are too few lines below a layer.
    TooFewLines = 7,
    /// A run file is not 36 to 65,536 bytes long.
    FileLength = 8,
    /// A run file does not end in the letters RUN1.
    NoMark = 9,
    /// A trailer's distances do not lead to settings and requests.
    BadDistances = 10,
    /// The pile letter is not A, B or C.
    UnknownPile = 11,
    /// There are more requests than slots.
    TooManyRequests = 12,
    /// A request's letter is not r or w.
    UnknownRequest = 13,
    /// A request does not end before the trailer.
    RequestCutShort = 14,
    /// The trailer's number is not that of the requests.
    RequestsMiscounted = 15,
}

impl Denial {
    // A method and no `From`: `u8::from(denial)` would not say what the number is.
    /// The number by which this denial is known.
    pub fn number(self) -> u8
        ensures { result ≡ number self }
    {
        self as u8
    }
}

/// A denial is shown as its number.
impl fmt::Display for Denial {
    ghost output = { λ d. Some (decimal (number d)) };

    fn fmt<W: fmt::Write>(&self, f: &mut fmt::Formatter<W>) -> fmt::Result {
        let number = self.number();
        write!(f, "{number}")
    }
}
