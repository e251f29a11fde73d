//! Rows of items, counted numbers, windows over any row, and the first match in a row.

#![tactic(auto)]

pub mod numbers;
mod place;
pub mod row;
pub mod search;
pub mod window;
