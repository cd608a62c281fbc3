//! The requests of a run file, handed out in turn.

ghost use Rattle.std.specs.Prelude.{◌≡◌, ◌+◌, ◌≤◌, ◌<◌, min, length, take, drop, ◌==◌, None, MatchResult};
ghost use Rattle.runfile.specs.Asks.{Sixteen};
ghost use Rattle.runfile.specs.Faults.{or_fault};
ghost use Rattle.line.specs.declared.denial.Denial.TheVariants.{RequestsMiscounted, RequestCutShort};
ghost use Rattle.runfile.specs.declared.fault.Stage.TheVariants.{Trailer as in_trailer, Request as in_request};
ghost use Rattle.reader.specs.Reading.{Handed, requests_fault, requests_from, walk_end};

use crate::bytes::bytes_at;
use crate::faults::at_trailer;
use line::denial::Denial;
use runfile::fault::{Fault, Stage};
use runfile::lengths;
use runfile::request::Request;

/// The requests that are left of a file, up to its trailer.
#[derive(Clone, Copy)]
pub struct Requests<'a> {
    // whole, with the end beside it, since public clauses name both and faults count from the file's end
    file: &'a [u8],
    at: usize,
    end: usize,
    ghost within: { (at ≤ end) × (end ≤ length file.now) × (end ≤ 65520) },
}

impl<'a> Requests<'a> {
    ghost use Rattle.reader.specs.Checked.{requests_in};

    /// The requests of a run file from a place on. A file whose length is not from 16 to 65,536 has none.
    pub fn new(file: &'a [u8], from: usize) -> Requests<'a>
        ensures file { result.file.now ≡ file.now }
        ensures end { result.end ≡ walk_end file.now }
        ensures at { result.at ≡ min from (walk_end file.now) }
    {
        let n = file.len();
        let end = if (lengths::TRAILER..=lengths::LONGEST).contains(&n) {
            n - lengths::TRAILER
        } else {
            0
        };
        Requests {
            file,
            at: from.min(end),
            end,
        }
    }

    /// Hands out the next request. Denied with 15 where none is left, with 13 where the letter is not r or w, and with 14
    /// where the request does not end before the trailer; a denial leaves the place as it was.
    pub fn next(&mut self) -> Result<Request<'a>, Fault>
        ensures file { self.new.file.now ≡ self.old.file.now }
        ensures end { self.new.end ≡ self.old.end }
        ensures sixteen { Sixteen result }
        ensures handed { Handed self.old.file.now self.old.at self.old.end result self.new.at }
    {
        if self.is_used_up() {
            return Err(self.miscounted());
        }
        let place = self.at as u32;
        match self.file[self.at] {
            b'r' => {
                let bytes = self.take(lengths::READ)?;
                let line = u16::from_le_bytes(bytes_at(bytes, 1));
                Ok(Request::Read { line, place })
            }
            b'w' => {
                let bytes = self.take(lengths::WRITE)?;
                let line = u16::from_le_bytes(bytes_at(bytes, 1));
                Ok(Request::Write {
                    line,
                    place,
                    bytes: &bytes[3..],
                })
            }
            _ => Err(Fault::new(Denial::UnknownRequest, place, Stage::Request)),
        }
    }

    // Takes the bytes of a request of that size. Denied with 14 where it does not end before the trailer.
    fn take(&mut self, size: usize) -> Result<&'a [u8], Fault>
        requires left { self.old.at < self.old.end }
        ensures file { self.new.file.now ≡ self.old.file.now }
        ensures end { self.new.end ≡ self.old.end }
        ensures cases { MatchResult result
            (λ bytes. (self.old.at + size ≤ self.old.end) × (bytes.now ≡ take size (drop self.old.at self.old.file.now)) × (length bytes.now ≡ size) × (self.new.at ≡ self.old.at + size))
            (λ fault. (self.old.end < self.old.at + size) × (fault ≡ record { denial = RequestCutShort; place = self.old.at; stage = in_request }) × (self.new.at ≡ self.old.at)) }
    {
        let at = self.at;
        if self.end - at < size {
            return Err(Fault::new(Denial::RequestCutShort, at as u32, Stage::Request));
        }
        self.at = at + size;
        Ok(&self.file[at..at + size])
    }

    /// Whether no request is left.
    pub fn is_used_up(&self) -> bool
        ensures left { result ≡ (self.now.at == self.now.end) }
    {
        self.at == self.end
    }

    /// Goes over the requests that are left, of which there are to be this many. Denied with 15 where there are fewer or more, and
    /// with 13 and 14 as `next` is, at the first request that is at fault.
    pub fn check(self, number: u32) -> Result<CheckedRequests<'a>, Fault>
        ensures answer { requests_in result ≡ or_fault (requests_fault self.entry.file.now self.entry.at self.entry.end number) (requests_from self.entry.file.now self.entry.at number) }
    {
        let mut requests = self;
        for _ in 0..number {
            requests.next()?;
        }
        if !requests.is_used_up() {
            return Err(requests.miscounted());
        }
        Ok(CheckedRequests {
            requests: self,
            left: number,
        })
    }

    // The fault of a trailer whose number is not that of the requests.
    fn miscounted(&self) -> Fault
        ensures fault { result ≡ record { denial = RequestsMiscounted; place = self.now.end + 8; stage = in_trailer } }
    {
        at_trailer(Denial::RequestsMiscounted, self.end + 8)
    }
}

/// Requests that were checked: none of them is at fault, and there are as many as were counted.
#[derive(Clone, Copy)]
pub struct CheckedRequests<'a> {
    requests: Requests<'a>,
    left: u32,
    ghost checked: { requests_fault requests.file.now requests.at requests.end left ≡ None },
}

impl<'a> Iterator for CheckedRequests<'a> {
    ghost use Rattle.std.specs.Iterator.{item_count};
    ghost use Rattle.reader.specs.Checked.{HandsOut, requests_left};

    type Item = Request<'a>;

    ghost next_gives = { HandsOut };

    ghost remaining = { item_count requests_left };

    fn next(&mut self) -> Option<Request<'a>> {
        self.left = self.left.checked_sub(1)?;
        self.requests.next().ok()
    }
}
