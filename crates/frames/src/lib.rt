//! The open blocks around an element: they bind loop variables and loop objects, and are the trail of a fault.

#![tactic(auto)]

pub mod columns;
mod fields;
pub mod frame;
pub mod item;
pub mod met;
pub mod stack;
pub mod trail;
