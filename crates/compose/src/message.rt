//! What a refusal says, by `Display`.

ghost use Rattle.std.specs.Prelude.{Some};
ghost use Rattle.compose.specs.Messages.{fault_text, refusal_text, wrong_text};

use crate::refusal::{Fault, Refusal, Wrong};
use std::fmt;

impl fmt::Display for Wrong {
    ghost output = { λ w. Some (wrong_text w) };

    fn fmt<W: fmt::Write>(&self, f: &mut fmt::Formatter<W>) -> fmt::Result {
        match *self {
            Wrong::Expected(setting) => {
                let name = setting.name();
                write!(f, "the line of `{name}` should stand here")
            }
            Wrong::UnknownRequest => write!(f, "a request begins with `r` or `w`"),
            Wrong::NotALetter => write!(f, "a pile is one letter"),
            Wrong::NotANumber => write!(f, "a word is no number"),
            Wrong::OutOfRange => write!(f, "a number is out of range"),
            Wrong::MissingWord => write!(f, "a word is missing"),
            Wrong::ExtraWord => write!(f, "there is a word too many"),
            Wrong::TooLong => write!(f, "the file would be longer than 65536 bytes"),
        }
    }
}

impl fmt::Display for Fault {
    ghost output = { λ x. Some (fault_text x) };

    fn fmt<W: fmt::Write>(&self, f: &mut fmt::Formatter<W>) -> fmt::Result {
        let line = self.line;
        let wrong = self.wrong;
        write!(f, "line {line}: {wrong}")
    }
}

impl fmt::Display for Refusal {
    ghost output = { λ r. Some (refusal_text r) };

    fn fmt<W: fmt::Write>(&self, f: &mut fmt::Formatter<W>) -> fmt::Result {
        match *self {
            Refusal::NoMemory => write!(f, "there is no memory for the file"),
            Refusal::Text(fault) => write!(f, "{fault}"),
        }
    }
}
