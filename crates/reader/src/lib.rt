//! The reader of run files: every question in its order, the requests in turn, and the slots that it fills.

#![tactic(auto)]

mod bytes;
mod faults;
pub mod reader;
pub mod requests;
