//! Requests out of lines.

ghost use Rattle.std.specs.Prelude.{◌≡◌, OnOk};
ghost use Rattle.compose.specs.Fields.{after_load, load_in, read_in, request_in, request_size, write_in};
ghost use Rattle.compose.specs.Pieces.{words_of};

use crate::refusal::Wrong;
use crate::text::Words;
use line::load::{Activity, Load};
use runfile::lengths;

/// A request. It is no call of a medium: what writes run files knows their format, and no medium.
#[derive(Clone, Copy)]
pub(crate) enum Request {
    /// Read a line.
    Read { line: u16 },
    /// Write a load to a line.
    Write { line: u16, load: Load },
}

impl Request {
    /// How many bytes the request has in a run file.
    pub(crate) fn size(self) -> usize
        ensures size { result ≡ request_size self }
    {
        match self {
            Request::Read { .. } => lengths::READ,
            Request::Write { .. } => lengths::WRITE,
        }
    }
}

// The load that the next five words spell.
fn read_load(words: &mut Words) -> Result<Load, Wrong>
    ensures answer { result ≡ load_in (words_of words.old) }
    ensures after { OnOk result (words_of words.new ≡ after_load (words_of words.old)) }
{
    Ok(Load {
        time: words.field()?,
        east: words.field()?,
        north: words.field()?,
        tonnes: words.field()?,
        activity: Activity(words.field()?),
    })
}

// The request to read that the words after its letter spell.
fn read_fields(mut words: Words) -> Result<Request, Wrong>
    ensures answer { result ≡ read_in (words_of words.entry) }
{
    let line = words.field()?;
    words.end()?;
    Ok(Request::Read { line })
}

// The request to write that the words after its letter spell.
fn write_fields(mut words: Words) -> Result<Request, Wrong>
    ensures answer { result ≡ write_in (words_of words.entry) }
{
    let line = words.field()?;
    let load = read_load(&mut words)?;
    words.end()?;
    Ok(Request::Write { line, load })
}

/// The request that a line spells: `r LINE` or `w LINE TIME EAST NORTH TONNES ACTIVITY`. Refused where the first word is another, where
/// a word is missing or left over, and where one is no number or is out of its range: whichever comes first.
pub(crate) fn read_request(mut words: Words) -> Result<Request, Wrong>
    ensures answer { result ≡ request_in (words_of words.entry) }
{
    match words.word()? {
        b"r" => read_fields(words),
        b"w" => write_fields(words),
        _ => Err(Wrong::UnknownRequest),
    }
}
