//! The text of a value of a tray: how long it is, and the text laid into a caller's buffer.

#![tactic(auto)]

mod leaf;
pub mod measure;
pub mod write;
