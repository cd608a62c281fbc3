//! Run files: what they hold and what may be wrong with them, and the slots of a run.

#![tactic(auto)]

pub mod fault;
pub mod lengths;
pub mod request;
pub mod settings;
pub mod slot;
