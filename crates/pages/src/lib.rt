//! Pieces of text, written into a caller's buffer.

#![tactic(auto)]

pub mod cuts;
mod lay;
pub mod marks;
mod pairs;
pub mod write;
