//! The layer of gap regions, over every medium.

#![tactic(auto)]

pub mod layer;
mod regions;
