//! The scatter layer: lines at the places to which a fixed shuffle takes them.

#![tactic(auto)]

pub mod layer;
