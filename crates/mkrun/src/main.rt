//! The program `mkrun`: readable lines on standard input, the bytes of a run file on standard output.

#![tactic(auto)]

use compose::compose::compose;
use runfile::lengths;
use std::io::{Read, Write};
use std::process::ExitCode;

// Nothing is written before the whole text was read without a fault.
fn make(rt: &HostRuntime) -> anyhow::Result<()> {
    let heap = rt.alloc();
    let mut text = Vec::new(heap);
    rt.stdin().read_to_end(&mut text)?;
    let mut file = Vec::with_capacity(heap, lengths::LONGEST)?;
    compose(&text, &mut file)?;
    rt.stdout().write_all(&file)?;
    Ok(())
}

fn main(rt: HostRuntime) -> ExitCode {
    match make(&rt) {
        Ok(()) => ExitCode::SUCCESS,
        Err(error) => {
            // Where even this can't be written, the status alone says it.
            let _ = eprintln!(rt; "mkrun: {error}");
            ExitCode::FAILURE
        }
    }
}
