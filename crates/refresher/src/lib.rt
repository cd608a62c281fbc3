//! The refresh layer: Security Refresh over any medium, and a medium itself.

#![tactic(auto)]

pub mod layer;
mod registers;
