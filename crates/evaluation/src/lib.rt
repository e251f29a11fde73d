//! What the values of a template come to: names, steps, numbers, and values that go through filters.

#![tactic(auto)]

pub mod chains;
pub mod looking;
pub mod names;
pub mod steps;
