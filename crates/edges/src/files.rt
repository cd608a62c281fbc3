//! Run files of every fault, and the legal ones beside them.

use runfile::slot::Slot;
use runner::run::run_on_bytes;
use std::alloc::{AllocError, Global};

// Carries a file out with 2,048 slots, and prints its fault or its totals.
fn show(rt: &HostRuntime, name: &str, file: &[u8]) -> anyhow::Result<()> {
    let heap = rt.alloc();
    let mut slots = vec![in heap; Slot::default(); 2048]?;
    let mut bytes = vec![in heap; 0u8; 65536]?;
    let mut counts = vec![in heap; 0u32; 4096]?;
    match run_on_bytes(file, &mut slots, &mut bytes, &mut counts) {
        Ok(totals) => println!(rt; "{name}: {totals}")?,
        Err(fault) => println!(rt; "{name}: {fault}")?,
    }
    Ok(())
}

pub(crate) fn lengths(rt: &HostRuntime) -> anyhow::Result<()> {
    let heap = rt.alloc();
    for n in [0, 35, 36, 65536, 65537] {
        let zeros = vec![in heap; 0u8; n]?;
        show(rt, "zeros", &zeros)?;
    }
    Ok(())
}

// The parts of a run file, as they are to stand in it.
#[derive(Clone, Copy)]
struct Parts<'a> {
    letter: u8,
    lines: u16,
    life: u32,
    requests: &'a [u8],
    number: u32,
}

impl Parts<'_> {
    // The file after one byte that is not read, with so much added to its first distance.
    fn file(self, heap: Global, added: u32) -> Result<Vec<u8>, AllocError> {
        let mut file = Vec::new(heap);
        file.extend_from_slice(&[255, self.letter, 1])?;
        file.extend_from_slice(&2u16.to_le_bytes())?;
        file.extend_from_slice(&self.lines.to_le_bytes())?;
        file.extend_from_slice(&[1, 77])?;
        file.extend_from_slice(&self.life.to_le_bytes())?;
        file.extend_from_slice(&[0; 8])?;
        file.extend_from_slice(self.requests)?;
        let back = (self.requests.len() & 0xffff) as u32;
        file.extend_from_slice(&(back + 20).wrapping_add(added).to_le_bytes())?;
        file.extend_from_slice(&back.to_le_bytes())?;
        file.extend_from_slice(&self.number.to_le_bytes())?;
        file.extend_from_slice(b"RUN1")?;
        Ok(file)
    }
}

const PLAIN: Parts<'static> = Parts {
    letter: b'A',
    lines: 5,
    life: 20,
    requests: b"",
    number: 0,
};

// The plain file with bytes ahead of it, so that it has so many in all.
fn padded(rt: &HostRuntime, name: &str, length: usize) -> anyhow::Result<()> {
    let heap = rt.alloc();
    let plain = PLAIN.file(heap, 0)?;
    let ahead = length.saturating_sub(plain.len());
    let mut file = vec![in heap; 0u8; ahead]?;
    file.extend_from_slice(&plain)?;
    show(rt, name, &file)
}

pub(crate) fn trailers(rt: &HostRuntime) -> anyhow::Result<()> {
    let heap = rt.alloc();
    show(rt, "good", &PLAIN.file(heap, 0)?)?;
    padded(rt, "good and the longest", 65536)?;
    padded(rt, "good but for its length", 65537)?;
    show(rt, "first distance one more", &PLAIN.file(heap, 1)?)?;
    show(rt, "first distance one less", &PLAIN.file(heap, u32::MAX)?)?;
    let whole = PLAIN.file(heap, 0)?;
    let n = whole.len();
    if n > 1 {
        show(rt, "good and the shortest", &whole[1..])?;
        show(rt, "mark cut", &whole[0..n - 1])?;
    }
    reach(rt)
}

// A first distance that reaches the file's first byte, and one past it.
fn reach(rt: &HostRuntime) -> anyhow::Result<()> {
    let file = Parts {
        requests: b"r",
        number: 1,
        ..PLAIN
    }
    .file(rt.alloc(), 0)?;
    if file.len() > 2 {
        show(rt, "settings at the first byte", &file[1..])?;
        show(rt, "settings before the first byte", &file[2..])?;
    }
    Ok(())
}

pub(crate) fn settings(rt: &HostRuntime) -> anyhow::Result<()> {
    let heap = rt.alloc();
    for letter in [b'@', b'A', b'B', b'C', b'D', b'a'] {
        show(rt, "letter", &Parts { letter, ..PLAIN }.file(heap, 0)?)?;
    }
    for lines in [0, 1, 4096, 4097] {
        show(rt, "lines", &Parts { lines, ..PLAIN }.file(heap, 0)?)?;
    }
    for life in [0, 1, 4294967295] {
        show(rt, "life", &Parts { life, ..PLAIN }.file(heap, 0)?)?;
    }
    show(
        rt,
        "lines before life",
        &Parts {
            lines: 0,
            life: 0,
            ..PLAIN
        }
        .file(heap, 0)?,
    )
}

// A file with these requests and this number of them.
fn ask(rt: &HostRuntime, name: &str, requests: &[u8], number: u32) -> anyhow::Result<()> {
    show(
        rt,
        name,
        &Parts {
            requests,
            number,
            ..PLAIN
        }
        .file(rt.alloc(), 0)?,
    )
}

pub(crate) fn requests(rt: &HostRuntime) -> anyhow::Result<()> {
    ask(rt, "read at its end", b"r\x04\x00", 1)?;
    ask(rt, "read cut", b"r\x04", 1)?;
    ask(rt, "read and a byte more", b"r\x04\x00\x00", 1)?;
    ask(rt, "read and a letter less", b"r\x04\x00\x00", 2)?;
    ask(rt, "write at its end", b"w\x04\x00................", 1)?;
    ask(rt, "write cut", b"w\x04\x00...............", 1)?;
    ask(
        rt,
        "write and a byte more",
        b"w\x04\x00.................",
        1,
    )?;
    ask(rt, "other letter", b"R\x04\x00", 1)?;
    ask(rt, "too few", b"r\x04\x00", 2)?;
    ask(rt, "too many", b"r\x04\x00r\x04\x00", 1)?;
    ask(rt, "second at fault", b"r\x04\x00x\x04\x00", 2)?;
    slots(rt)
}

fn slots(rt: &HostRuntime) -> anyhow::Result<()> {
    let heap = rt.alloc();
    let mut requests = Vec::new(heap);
    for _ in 0..2048 {
        requests.extend_from_slice(b"r\x00\x00")?;
    }
    ask(rt, "as many as slots", &requests, 2048)?;
    requests.extend_from_slice(b"r\x00\x00")?;
    ask(rt, "one more than slots", &requests, 2049)
}
