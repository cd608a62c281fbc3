//! The two bottom media: the cell medium over values, and the byte medium over bytes and write counts.

#![tactic(auto)]

pub mod bytes;
pub mod cells;
