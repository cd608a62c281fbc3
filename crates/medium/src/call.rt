//! A read or a write, as a value.

/// One request to a medium.
#[derive(Clone, Copy)]
pub enum Call<L> {
    Read(u16),
    Write(u16, L),
}
