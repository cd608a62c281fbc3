//! Successions of calls on a pile, and the law that every pile keeps over them.

#![tactic(auto)]

pub mod marked;
pub mod run;
