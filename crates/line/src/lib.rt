//! What is stored: a line's kind, the two kinds that the recorder uses, and what calls answer: accepted ones, and denials.

#![tactic(auto)]

pub mod answer;
pub mod denial;
pub mod kind;
pub mod load;
pub mod word;
