//! The listing: the text of a fault, or of a run's slots and totals.

#![tactic(auto)]

pub mod listing;
mod requests;
