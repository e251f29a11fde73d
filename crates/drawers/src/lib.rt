//! What outlives a ticket: variables and counters of names, positions of cycle names, and one changed text.

#![tactic(auto)]

pub mod drawer;
pub mod kept;
pub mod things;
