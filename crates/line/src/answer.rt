//! What a medium answers to a read or a write.

use crate::denial::Denial;

/// What an accepted call answers.
#[derive(Clone, Copy)]
pub enum Accepted<L> {
    /// The line that was read.
    Line(L),
    /// The toll of a write.
    Toll(u64),
}

/// The answer to a call: what was accepted answers, or why it was denied.
pub type Answer<L> = Result<Accepted<L>, Denial>;
