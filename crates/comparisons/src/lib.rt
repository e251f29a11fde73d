//! How two values of a comparison compare.

#![tactic(auto)]

pub mod compare;
mod contains;
mod forms;
mod members;
mod order;
mod plain;
pub mod same;
mod search;
pub mod truth;
