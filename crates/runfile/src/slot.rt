//! A slot: one request, with the answer to it.

ghost use Rattle.std.specs.Prelude.{◌≡◌, Some};
ghost use Rattle.runfile.specs.Slots.{slot_of, tag_letter, values};
ghost use Rattle.runfile.specs.Texts.{answer_text, slot_text};

use crate::request::Request;
use line::answer::{Accepted, Answer};
use line::load::Load;
use std::fmt;

/// Which request a slot is for.
#[derive(Clone, Copy, Default)]
pub enum Tag {
    /// A read.
    #[default]
    Read,
    /// A write.
    Write,
}

impl Tag {
    /// The letter of the request: r or w.
    pub fn letter(self) -> char
        ensures letter { result ≡ tag_letter self }
    {
        match self {
            Tag::Read => 'r',
            Tag::Write => 'w',
        }
    }
}

/// A request of a run file, and the answer to it.
#[derive(Clone, Copy, Default)]
pub struct Slot {
    /// Which request it is.
    pub tag: Tag,
    /// The line that it asks for.
    pub line: u16,
    /// Its place in the file.
    pub place: u32,
    /// The answer to it; none where it has not been carried out.
    pub answer: Option<Answer<Load>>,
}

impl Slot {
    // No `From<Request>`: the name says that the answer is still to come.
    /// The slot of a request that has not been carried out.
    pub fn unmarked(request: Request) -> Slot
        ensures slot { result ≡ slot_of request.entry }
    {
        let (tag, line, place) = match request {
            Request::Read { line, place } => (Tag::Read, line, place),
            Request::Write { line, place, .. } => (Tag::Write, line, place),
        };
        Slot {
            tag,
            line,
            place,
            answer: None,
        }
    }

    // Zeros and no `Option`, here and below: a rule of the project has what has no answer worth 0 in all three.
    /// The number of the denial, and 0 where there is none.
    pub fn number(self) -> u8
        ensures number { result ≡ (values self.answer).number }
    {
        match self.answer {
            Some(Err(denial)) => denial.number(),
            _ => 0,
        }
    }

    /// The toll of a write that was carried out, and 0 for any other answer.
    pub fn toll(self) -> u64
        ensures toll { result ≡ (values self.answer).toll }
    {
        match self.answer {
            Some(Ok(Accepted::Toll(toll))) => toll,
            _ => 0,
        }
    }

    /// The line that was read, and a load of zeros for any other answer.
    pub fn load(self) -> Load
        ensures load { result ≡ (values self.answer).load }
    {
        match self.answer {
            Some(Ok(Accepted::Line(load))) => load,
            _ => Load::default(),
        }
    }
}

/// What follows a request: ok with the toll or the load, or no with the denial's number; nothing where it has no answer.
// A struct around it, since an `Option` and a `Result` are types of another crate, which have no `Display` of ours.
#[derive(Clone, Copy)]
pub struct AnswerText(pub Option<Answer<Load>>);

impl fmt::Display for AnswerText {
    ghost output = { λ t. Some (answer_text t.0) };

    fn fmt<W: fmt::Write>(&self, f: &mut fmt::Formatter<W>) -> fmt::Result {
        match self.0 {
            None => Ok(()),
            Some(Err(denial)) => write!(f, " no {denial}"),
            Some(Ok(Accepted::Toll(toll))) => write!(f, " ok {toll}"),
            Some(Ok(Accepted::Line(load))) => write!(f, " ok {load}"),
        }
    }
}

/// A slot is shown as the request's letter and line, and its answer.
impl fmt::Display for Slot {
    ghost output = { λ s. Some (slot_text s) };

    fn fmt<W: fmt::Write>(&self, f: &mut fmt::Formatter<W>) -> fmt::Result {
        let letter = self.tag.letter();
        let line = self.line;
        let answer = AnswerText(self.answer);
        write!(f, "{letter} {line}{answer}")
    }
}
