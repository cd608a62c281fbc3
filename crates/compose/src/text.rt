//! The lines of a text and the words of a line.

ghost use Rattle.std.specs.Prelude.{◌≡◌, Ok};
ghost use Rattle.std.specs.Iterator.{YieldsFirstRef, item_count};
ghost use Rattle.compose.specs.Fields.{Takes, at, at_line, ended, seen};
ghost use Rattle.compose.specs.Lines.{HandedLine, entry_of, is_entry};
ghost use Rattle.compose.specs.Pieces.{pieces, pieces_of, words, words_of};
ghost use Rattle.compose.specs.Taken.{lines_in};

use crate::fields::Field;
use crate::refusal::{Fault, Wrong};

/// What is left of bytes that are split at each `stop`.
#[derive(Clone, Copy)]
pub(crate) struct Pieces<'a> {
    pub(crate) rest: Option<&'a [u8]>,
    pub(crate) stop: u8,
}

impl<'a> Pieces<'a> {
    // The pieces of bytes.
    fn of(bytes: &'a [u8], stop: u8) -> Pieces<'a>
        ensures pieces { pieces_of result ≡ pieces stop bytes.now }
    {
        Pieces {
            rest: Some(bytes),
            stop,
        }
    }
}

impl<'a> Iterator for Pieces<'a> {
    type Item = &'a [u8];

    ghost next_gives = { YieldsFirstRef pieces_of };

    ghost remaining = { item_count pieces_of };

    fn next(&mut self) -> Option<&'a [u8]> {
        let rest = self.rest?;
        let stop = self.stop;
        match rest.iter().position(|byte| *byte == stop) {
            Some(i) => {
                self.rest = Some(&rest[i + 1..]);
                Some(&rest[..i])
            }
            None => {
                self.rest = None;
                Some(rest)
            }
        }
    }
}

/// The words that are left of a line: the pieces between spaces that are not empty.
#[derive(Clone, Copy)]
pub(crate) struct Words<'a> {
    pub(crate) pieces: Pieces<'a>,
}

impl<'a> Iterator for Words<'a> {
    type Item = &'a [u8];

    ghost next_gives = { YieldsFirstRef words_of };

    ghost remaining = { item_count words_of };

    fn next(&mut self) -> Option<&'a [u8]> {
        self.pieces.find(|word| !word.is_empty())
    }
}

impl<'a> Words<'a> {
    /// The next word. Refused where none is left.
    pub(crate) fn word(&mut self) -> Result<&'a [u8], Wrong>
        ensures answer { Takes Ok self.old (seen result) self.new }
    {
        self.next().ok_or(Wrong::MissingWord)
    }

    /// What the next word spells. Refused where no word is left, and where the word spells nothing of this type.
    pub(crate) fn field<F: Field>(&mut self) -> Result<F, Wrong>
        ensures answer { Takes F.spelled self.old result self.new }
    {
        F::read(self.word()?)
    }

    /// Refused where a word is left.
    pub(crate) fn end(mut self) -> Result<(), Wrong>
        ensures answer { result ≡ ended (words_of self.entry) }
    {
        match self.next() {
            Some(_) => Err(Wrong::ExtraWord),
            None => Ok(()),
        }
    }
}

/// A line's number, and the words that are left of it.
#[derive(Clone, Copy)]
pub(crate) struct Line<'a> {
    pub(crate) number: usize,
    pub(crate) words: Words<'a>,
}

impl<'a> Line<'a> {
    // The line of this number.
    fn of(bytes: &'a [u8], number: usize) -> Line<'a>
        ensures line { entry_of result ≡ record { number = number; words = words bytes.now } }
    {
        Line {
            number,
            words: Words {
                pieces: Pieces::of(bytes, b' '),
            },
        }
    }

    // Whether the line says something: there is a word, and the first does not begin with #.
    fn is_entry(mut self) -> bool
        ensures answer { result ≡ is_entry (words_of self.entry.words) }
    {
        self.words
            .next()
            .is_some_and(|word| !word.starts_with(b"#"))
    }

    /// The fault of this line.
    pub(crate) fn fault(self, wrong: Wrong) -> Fault
        ensures fault { result ≡ at self.entry.number wrong }
    {
        Fault {
            line: self.number,
            wrong,
        }
    }

    /// The answer, with a refusal as the fault of this line.
    pub(crate) fn locate<T>(self, answer: Result<T, Wrong>) -> Result<T, Fault>
        ensures answer { result ≡ at_line self.entry.number answer }
    {
        // not `self.fault`, of whose answer in a closure the proof is not found
        let line = self.number;
        answer.map_err(|wrong| Fault { line, wrong })
    }
}

/// The lines that are left of a text, and the number of the last line that was looked at.
#[derive(Clone, Copy)]
pub(crate) struct Lines<'a> {
    pub(crate) pieces: Pieces<'a>,
    pub(crate) number: usize,
}

impl<'a> Lines<'a> {
    /// The lines of a text.
    pub(crate) fn of(text: &'a [u8]) -> Lines<'a>
        ensures lines { pieces_of result.pieces ≡ pieces 10 text.now }
        ensures number { result.number ≡ 0 }
    {
        Lines {
            pieces: Pieces::of(text, b'\n'),
            number: 0,
        }
    }
}

/// The lines that have a word and are no comment.
impl<'a> Iterator for Lines<'a> {
    type Item = Line<'a>;

    ghost next_gives = { λ s r t. HandedLine s.number (pieces_of s.pieces) r t.number (pieces_of t.pieces) };

    ghost remaining = { item_count lines_in };

    fn next(&mut self) -> Option<Line<'a>> {
        // A `for` over `self.pieces.by_ref()` is not proved: the check has no name for what the lent field holds at a return.
        while let Some(bytes) = self.pieces.next() {
            self.number = self.number.saturating_add(1);
            let line = Line::of(bytes, self.number);
            if line.is_entry() {
                return Some(line);
            }
        }
        None
    }
}
