//! Refresh wear levelling: the registers of a round, how they map lines to places, and what is proved of them.

#![tactic(auto)]

pub mod round;
pub mod theorems;
