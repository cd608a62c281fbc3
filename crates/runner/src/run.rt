//! A whole run: from the bytes of a run file to its answers and totals.

ghost use Rattle.std.specs.Prelude.{◌≡◌, ◌≤◌, List, length, IfOk};
ghost use Rattle.runfile.specs.Faults.{or_fault};
ghost use Rattle.reader.specs.Reading.{reading};
ghost use Rattle.runner.specs.Runs.{medium_fault, surveyed, totals_of, slots_left, bytes_left, counts_left, ArrayHeld};

use crate::on_bytes::on_bytes;
use crate::totals::Totals;
use line::load::Load;
use media::bytes::survey;
use reader::reader::{Run, read_requests};
use runfile::fault::{Fault, Stage};
use runfile::slot::Slot;

// Asks the byte medium's questions of a run's settings, with that many bytes and counts to lend. Denied with 3, 4 and 5, at height 0.
fn survey_medium(run: &Run, bytes: usize, counts: usize) -> Result<(), Fault>
    ensures answer { result ≡ or_fault (medium_fault run.now bytes counts) tt }
{
    let lines = run.settings.lines as usize;
    let room = if lines <= counts {
        bytes.min(lines * 16)
    } else {
        0
    };
    survey::<Load>(lines, run.settings.life as u64, room).map_err(|denial| Fault::new(
        denial,
        run.place,
        Stage::Pile { height: 0 },
    ))
}

/// Carries out a run file's requests on a byte medium of loads, which lies in the front of the lent bytes and counts, and marks each
/// request's slot with its answer.
///
/// A file that cannot be read is denied as `read_run` denies it, and all slots and memory stay as they were. Settings that do not fit
/// the medium, or for which too little memory is lent, are denied with 3, 4 or 5 at stage P, and no slot is marked.
pub fn run_on_bytes(
    file: &[u8],
    slots: &mut [Slot],
    bytes: &mut [u8],
    counts: &mut [u32],
) -> Result<Totals, Fault>
    ensures answer { result ≡ totals_of (surveyed (reading file.now (length slots.old)) (length bytes.old) (length counts.old)) bytes.old }
    ensures slots { slots.new ≡ slots_left (surveyed (reading file.now (length slots.old)) (length bytes.old) (length counts.old)) (reading file.now (length slots.old)) bytes.old slots.old }
    ensures bytes { bytes.new ≡ bytes_left (surveyed (reading file.now (length slots.old)) (length bytes.old) (length counts.old)) bytes.old }
    ensures counts { counts.new ≡ counts_left (surveyed (reading file.now (length slots.old)) (length bytes.old) (length counts.old)) bytes.old counts.old }
    ensures bound { IfOk result (λ t. t.requests ≤ length slots.old) }
    ensures array { ArrayHeld (surveyed (reading file.now (length slots.old)) (length bytes.old) (length counts.old)) bytes.old }
{
    let (run, requests) = read_requests(file, slots)?;
    survey_medium(&run, bytes.len(), counts.len())?;
    let lines = run.settings.lines as usize;
    let number = run.number as usize;
    let totals = on_bytes(
        &mut bytes[0..lines * 16],
        &mut counts[0..lines],
        run.settings.life,
        requests,
        &mut slots[0..number],
    );
    Ok(totals)
}
