//! The reader of run files.

ghost use Rattle.std.specs.Prelude.{◌≡◌, ◌+◌, ◌≤◌, min, not, ◌++◌, map, length, drop, slice_index};
ghost use Rattle.line.specs.declared.denial.Denial.TheVariants.{UnknownPile};
ghost use Rattle.runfile.specs.Faults.{faulted, or_fault};
ghost use Rattle.reader.specs.Checked.{reading_in, requests_left};
ghost use Rattle.reader.specs.Laws.{Exact, OneMeaning, ReadBack};
ghost use Rattle.runfile.specs.Layout.{known_pile, settings_from};
ghost use Rattle.reader.specs.Reading.{reading, run_in, run_of, settings_fault, slots_after, trailer_fault, trailer_of, walk_end};
ghost use Rattle.runfile.specs.Slots.{slot_at};
ghost use Rattle.runfile.specs.declared.fault.Stage.TheVariants.{Settings as in_settings};

use crate::bytes::bytes_at;
use crate::faults::at_trailer;
use crate::requests::{CheckedRequests, Requests};
use line::denial::Denial;
use runfile::fault::{Fault, Stage};
use runfile::lengths;
use runfile::settings::Settings;
use runfile::slot::Slot;

/// The numbers of a trailer.
#[derive(Clone, Copy)]
pub struct Trailer {
    /// How many bytes before the trailer the settings begin.
    pub settings: u32,
    /// How many bytes before the trailer the requests begin.
    pub requests: u32,
    /// How many requests there are.
    pub number: u32,
}

/// A run that was read from a file.
#[derive(Clone, Copy)]
pub struct Run {
    /// The settings.
    pub settings: Settings,
    /// The place of the settings in the file; the requests follow them.
    pub place: u32,
    /// How many requests there are.
    pub number: u32,
}

impl Run {
    /// The requests of the file that the run was read from, to be handed out in turn.
    pub fn requests<'a>(self, file: &'a [u8]) -> Requests<'a>
        ensures file { result.file.now ≡ file.now }
        ensures end { result.end ≡ walk_end file.now }
        ensures at { result.at ≡ min (self.place + 20) (walk_end file.now) }
    {
        Requests::new(file, self.place as usize + lengths::SETTINGS)
    }
}

// The numbers of the trailer.
fn trailer_of(file: &[u8]) -> Trailer
    requires length { 16 ≤ length file.now }
    ensures trailer { result ≡ trailer_of file.now }
{
    let start = file.len() - lengths::TRAILER;
    Trailer {
        settings: u32::from_le_bytes(bytes_at(file, start)),
        requests: u32::from_le_bytes(bytes_at(file, start + 4)),
        number: u32::from_le_bytes(bytes_at(file, start + 8)),
    }
}

/// Reads the trailer. Denied with 8 at a length that is not from 36 to 65,536, with 9 where the letters RUN1 are missing,
/// and with 10 where the distances do not lead to settings and requests.
pub fn read_trailer(file: &[u8]) -> Result<Trailer, Fault>
    ensures answer { result ≡ or_fault (trailer_fault file.now) (trailer_of file.now) }
{
    let n = file.len();
    if !(lengths::SHORTEST..=lengths::LONGEST).contains(&n) {
        return Err(at_trailer(Denial::FileLength, 0));
    }
    if !file.ends_with(b"RUN1") {
        return Err(at_trailer(Denial::NoMark, n - 4));
    }
    let trailer = trailer_of(file);
    let start = n - lengths::TRAILER;
    let distance = trailer.settings as usize;
    if distance != trailer.requests as usize + lengths::SETTINGS || distance > start {
        return Err(at_trailer(Denial::BadDistances, start));
    }
    Ok(trailer)
}

// The pile's letter, which stands at a place. Denied with 11 where it is not A, B or C.
fn read_pile(letter: u8, place: u32) -> Result<char, Fault>
    ensures answer { result ≡ or_fault (faulted (not (known_pile letter)) UnknownPile place in_settings) letter }
{
    match letter as char {
        pile @ ('A' | 'B' | 'C') => Ok(pile),
        _ => Err(Fault::new(Denial::UnknownPile, place, Stage::Settings)),
    }
}

// The settings at a place, with the pile's letter that was read there.
fn settings_from(file: &[u8], at: usize, pile: char) -> Settings
    requires length { at + 20 ≤ length file.now }
    requires letter { pile ≡ slice_index file.now at }
    ensures settings { result ≡ settings_from file.now at }
{
    let half = |offset: usize| u16::from_le_bytes(bytes_at(file, at + offset));
    Settings {
        pile,
        regions: file[at + 1],
        interval: half(2),
        lines: half(4),
        n: file[at + 6],
        life: u32::from_le_bytes(bytes_at(file, at + 8)),
        keys: [half(12), half(14), half(16), half(18)],
    }
}

/// Reads the trailer and the settings. Denied as `read_trailer` is, and with 11 where the pile's letter is not A, B or C.
pub fn read_settings(file: &[u8]) -> Result<Run, Fault>
    ensures answer { result ≡ or_fault (settings_fault file.now) (run_of file.now) }
{
    let trailer = read_trailer(file)?;
    let place = (file.len() - lengths::TRAILER) as u32 - trailer.settings;
    let at = place as usize;
    let pile = read_pile(file[at], place)?;
    Ok(Run {
        settings: settings_from(file, at, pile),
        place,
        number: trailer.number,
    })
}

// Fills a slot for each of the requests.
fn fill_slots(mut requests: CheckedRequests<'_>, slots: &mut [Slot])
    requires room { length (requests_left requests) ≤ length slots.old }
    ensures slots { slots.new ≡ map slot_at (requests_left requests.entry) ++ drop (length (requests_left requests.entry)) slots.old }
{
    // No `zip`: of slots written through one a proof knows nothing afterwards.
    for slot in slots.iter_mut() {
        let Some(request) = requests.next() else {
            return;
        };
        *slot = Slot::unmarked(request);
    }
}

// Asks every question of a file in turn, with this number of slots. Denied as `read_run` is.
fn check_run<'a>(file: &'a [u8], slots: usize) -> Result<(Run, CheckedRequests<'a>), Fault>
    ensures answer { reading_in result ≡ reading file.now slots }
{
    let run = read_settings(file)?;
    if run.number as usize > slots {
        return Err(at_trailer(Denial::TooManyRequests, file.len() - 8));
    }
    let requests = run.requests(file).check(run.number)?;
    Ok((run, requests))
}

/// Reads a run file, and fills a slot for each of its requests. Denied as `read_settings` is, with 12 where there are more
/// requests than slots, with 13 or 14 at a request, and with 15 where the trailer's number is not that of the requests. A
/// denial touches no slot, and no slot past the last request is touched.
pub fn read_run(file: &[u8], slots: &mut [Slot]) -> Result<Run, Fault>
    ensures answer { result ≡ run_in (reading file.now (length slots.old)) }
    ensures slots { slots.new ≡ slots_after (reading file.now (length slots.old)) slots.old }
    ensures exact { Exact file.now (length slots.old) result }
    ensures one { OneMeaning file.now }
    ensures back { ReadBack }
{
    read_requests(file, slots).map(|(run, _)| run)
}

/// Reads a run file and fills the slots as `read_run` does, and hands out the requests too: the first slots are theirs, in order.
pub fn read_requests<'a>(
    file: &'a [u8],
    slots: &mut [Slot],
) -> Result<(Run, CheckedRequests<'a>), Fault>
    ensures answer { reading_in result ≡ reading file.now (length slots.old) }
    ensures slots { slots.new ≡ slots_after (reading file.now (length slots.old)) slots.old }
    ensures exact { Exact file.now (length slots.old) (run_in (reading_in result)) }
    ensures one { OneMeaning file.now }
    ensures back { ReadBack }
{
    let (run, requests) = check_run(file, slots.len())?;
    fill_slots(requests, slots);
    Ok((run, requests))
}
