//! The fields of a line: what one word spells.

ghost use Rattle.std.specs.Prelude.{◌≡◌, ℕ, List, Result};
ghost use Rattle.compose.specs.declared.refusal.Wrong.{Wrong};
ghost use Rattle.compose.specs.Settings.{letter};

use crate::refusal::Wrong;

/// What one word spells.
pub(crate) trait Field: Drop + Sized {
    ghost spelled: { List ℕ → Result Self Wrong };

    /// What a word spells, or what is wrong with it.
    fn read(word: &[u8]) -> Result<Self, Wrong>
        ensures answer { result ≡ spelled word.now };
}

/// A pile's letter, which is any one byte.
#[derive(Clone, Copy)]
pub(crate) struct Letter(pub(crate) u8);

impl Field for Letter {
    ghost spelled = { letter };

    fn read(word: &[u8]) -> Result<Letter, Wrong> {
        match word {
            [letter] => Ok(Letter(*letter)),
            _ => Err(Wrong::NotALetter),
        }
    }
}
