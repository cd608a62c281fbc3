//! A medium: the trait of everything that stores lines, in terms of the flat array.

#![tactic(auto)]

pub mod ask;
pub mod call;
pub mod left;
pub mod lent;
pub mod medium;
