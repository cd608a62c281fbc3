//! One request of a run file.

/// A request, as it is handed out: the place is that of its letter in the file.
#[derive(Clone, Copy)]
pub enum Request<'a> {
    /// Read a line.
    Read {
        line: u16,
        place: u32,
    },
    /// Write a load, whose sixteen bytes are a part of the file, to a line.
    Write {
        line: u16,
        place: u32,
        bytes: &'a [u8],
    },
}
