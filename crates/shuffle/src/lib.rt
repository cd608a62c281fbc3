//! The shuffles: permutations of the numbers below a span, answered forward and back.

#![tactic(auto)]

pub mod feistel;
pub mod key;
pub mod shuffle;
pub mod theorems;
mod width;
