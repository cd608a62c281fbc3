//! Start-Gap wear levelling: the registers of its regions, the mapping of lines to places, and what is proved of them.

#![tactic(auto)]

pub mod life;
pub mod row;
pub mod theorems;
