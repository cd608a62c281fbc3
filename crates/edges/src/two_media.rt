//! The surveys of the two media, and writes until the life is used.

use crate::number::number;
use line::load::Load;
use media::bytes::ByteMedium;
use media::cells::CellMedium;
use media::{bytes, cells};
use medium::medium::Medium;

pub(crate) fn surveys(rt: &HostRuntime) -> anyhow::Result<()> {
    for (count, life) in [
        (0, 1),
        (1, 1),
        (4096, 1),
        (4097, 1),
        (0, 0),
        (1, 0),
        (1, 4294967295),
        (1, 4294967296),
    ] {
        let cell = number(&cells::survey(count, life));
        let byte = number(&bytes::survey::<u64>(count, life, 8));
        println!(rt; "count {count} life {life}: cells {cell}, bytes {byte}")?;
    }
    for long in [15, 16, 17] {
        let answer = number(&bytes::survey::<Load>(1, 1, long));
        println!(rt; "1 load in {long} bytes: {answer}")?;
    }
    Ok(())
}

// Writes and reads, the last write when the life is used.
fn exercise<M: Medium<Line = u64>>(
    rt: &HostRuntime,
    name: &str,
    medium: &mut M,
) -> anyhow::Result<()> {
    let first = number(&(*medium).write(1, 7));
    let past = number(&(*medium).write(2, 8));
    let second = number(&(*medium).write(0, 9));
    let used = number(&(*medium).write(1, 10));
    let past_used = number(&(*medium).write(2, 10));
    println!(rt; "{name} writes: {first} {past} {second} {used} {past_used}")?;
    for line in 0..3 {
        match (*medium).read(line) {
            Ok(value) => println!(rt; "{name} read {line}: {value}")?,
            Err(denial) => println!(rt; "{name} read {line}: no {denial}")?,
        }
    }
    let count = (*medium).count();
    let life = (*medium).life();
    let taken = (*medium).taken();
    let wear = (*medium).wear();
    println!(rt; "{name} count {count} life {life} taken {taken} wear {wear}")?;
    Ok(())
}

pub(crate) fn writes(rt: &HostRuntime) -> anyhow::Result<()> {
    let mut cells = [1u64, 2];
    exercise(rt, "cells", &mut CellMedium::new(&mut cells, 2))?;
    let mut bytes = [1u8; 16];
    let mut counts = [5u32; 2];
    exercise(
        rt,
        "bytes",
        &mut ByteMedium::<u64>::new(&mut bytes, &mut counts, 2),
    )?;
    exercise(
        rt,
        "unfit",
        &mut ByteMedium::<u64>::new(&mut bytes[0..15], &mut counts, 2),
    )?;
    Ok(())
}
