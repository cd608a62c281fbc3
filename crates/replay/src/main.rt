//! The program `replay`: a run file on standard input, its listing on standard output.

#![tactic(auto)]

use listing::listing::Listing;
use runfile::lengths;
use runfile::slot::Slot;
use runner::run::run_on_bytes;
use std::io::Read;

// The most requests that a run may have.
const SLOTS: usize = 2048;
// The most lines that a medium may have, and the bytes of a load.
const LINES: usize = 4096;

const WIDTH: usize = 16;
// One byte more than the longest run file has: a file that has it is too long, however much more there is.
const MOST: usize = lengths::LONGEST + 1;

fn replay(rt: &HostRuntime) -> anyhow::Result<()> {
    let heap = rt.alloc();
    // Room for all of it at once, and a byte more, so that the end is found without growing: a vector that grows as it is read comes to
    // twice the longest file.
    let mut file = Vec::with_capacity(heap, MOST + 1)?;
    rt.stdin().take(MOST as u64).read_to_end(&mut file)?;
    let mut slots = vec![in heap; Slot::default(); SLOTS]?;
    let mut bytes = vec![in heap; 0u8; LINES * WIDTH]?;
    let mut counts = vec![in heap; 0u32; LINES]?;
    let listing = match run_on_bytes(&file, &mut slots, &mut bytes, &mut counts) {
        Ok(totals) => {
            let n = totals.requests;
            Listing::Run {
                slots: &slots[0..n],
                totals,
            }
        }
        Err(fault) => Listing::Faulty(fault),
    };
    print!(rt; "{listing}")?;
    Ok(())
}

fn main(rt: HostRuntime) -> anyhow::Result<()> {
    replay(&rt)
}
