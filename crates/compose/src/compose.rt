//! A run file out of a text.

ghost use Rattle.std.specs.Prelude.{◌≤◌, vec_capacity};
ghost use Rattle.compose.specs.Bytes.{HasRoom};
ghost use Rattle.compose.specs.Composing.{Appended, Composed, Written};
ghost use Rattle.compose.specs.Pieces.{Cuts};
ghost use Rattle.compose.specs.Says.{Exact, Fitting, OneMeaning};
ghost use Rattle.compose.specs.Taken.{lines_in};

use crate::bytes::{Extent, put_request, put_settings, put_trailer};
use crate::refusal::{Fault, Refusal, Wrong};
use crate::requests::read_request;
use crate::settings::read_settings;
use crate::text::Lines;
use runfile::lengths;

// The most bytes that requests may have: what the longest run file has besides its settings and its trailer.
const MOST: usize = lengths::LONGEST - lengths::SETTINGS - lengths::TRAILER;

// Appends the requests of all lines that are left.
fn append_requests(lines: Lines, file: &mut Vec<u8>) -> Result<Extent, Fault>
    requires room { HasRoom file.old 65500 }
    ensures answer { Appended (lines_in lines.entry) file.old.items result file.new.items }
    ensures capacity { vec_capacity file.old ≤ vec_capacity file.new }
{
    let mut size = 0;
    let mut number = 0;
    for line in lines {
        let request = line.locate(read_request(line.words))?;
        size += request.size();
        if size > MOST {
            return Err(line.fault(Wrong::TooLong));
        }
        put_request(file, request);
        number += 1;
    }
    Ok(Extent { size, number })
}

// Appends the run file that a text says. Where it says none, whatever was appended is to be taken away again.
fn append_run(text: &[u8], file: &mut Vec<u8>) -> Result<(), Fault>
    requires room { HasRoom file.old 65536 }
    ensures answer { Written text.now file.old.items result file.new.items }
{
    let mut lines = Lines::of(text);
    put_settings(file, read_settings(&mut lines)?);
    let requests = append_requests(lines, file)?;
    put_trailer(file, requests);
    Ok(())
}

/// Appends the run file that a text says to `file`. Refused where there is no memory for the longest run file, and at the first fault of the
/// text; then the file is as it was.
pub fn compose(text: &[u8], file: &mut Vec<u8>) -> Result<(), Refusal>
    ensures answer { Composed text.now file.old result file.new }
    ensures exact { Exact text.now file.old result file.new }
    ensures one { OneMeaning text.now }
    ensures fits { Fitting text.now }
    ensures cuts { Cuts }
{
    file.reserve(lengths::LONGEST)?;
    let start = file.len();
    let answer = append_run(text, file);
    if answer.is_err() {
        file.truncate(start);
    }
    Ok(answer?)
}
