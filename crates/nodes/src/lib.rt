//! The tables that templates become when they are loaded: plain data, by places in the source text and numbers of entries.
//! They are tables and no boxes, by a rule of the project: there is one of each kind, of at most 4,096 nodes, so that a refused load cuts them back, and a render goes over them by a loop and allocates nothing.

#![tactic(auto)]

pub mod book;
pub mod exprs;
pub mod table;
