//! Carries out a run file's requests on a medium, and marks each slot with its answer.

#![tactic(auto)]

mod on_bytes;
mod play;
pub mod run;
pub mod totals;
