//! What stands in a mark, judged token by token: values, rows, targets and chains of filters.

#![tactic(auto)]

pub mod reader;
pub mod refusals;
pub mod words;
