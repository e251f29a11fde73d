//! What the records of a tray stand for, the steps into a value, and the rows that a loop may go over.

#![tactic(auto)]

pub mod finds;
pub mod rows_of;
pub mod steps;
