//! Tickets: templates of a sheet rendered with a tray, drawers and a bank into a buffer.

#![tactic(auto)]

pub mod call;
pub mod calls;
mod ends;
mod flow;
mod guards;
mod leaves;
mod machine;
mod openings;
mod stdlib;
