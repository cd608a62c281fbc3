//! The row of registers of one region.

/// A region's registers: by how much its lines are rotated, which of its places holds no line, and how many writes it has taken since its last move.
#[derive(Clone, Copy, PartialEq, Eq, Debug)]
pub struct Row {
    pub start: u16,
    pub gap: u16,
    pub due: u16,
}
