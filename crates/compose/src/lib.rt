//! Run files out of readable lines: what a text says, as the bytes of a run file.

#![tactic(auto)]

mod bytes;
pub mod compose;
mod fields;
pub mod message;
mod numbers;
pub mod refusal;
mod requests;
mod settings;
mod text;
