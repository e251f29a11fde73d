//! What a rendering handles: values with their texts, faults, and what never changes while a ticket is rendered.

#![tactic(auto)]

pub mod faults;
pub mod records;
pub mod scenes;
pub mod value;
