//! The registers of a refresh round.

/// The keys of the round in progress, and the line that is refreshed next. Both keys are cut to the bits that count.
#[derive(Clone, Copy)]
pub struct Round {
    /// The key that places the lines which are not yet remapped.
    pub previous: u16,
    /// The key that places the lines which are.
    pub current: u16,
    /// The index in the ring of the current key.
    pub turn: u16,
    /// The line that is refreshed next.
    pub pointer: u16,
}
