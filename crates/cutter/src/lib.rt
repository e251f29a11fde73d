//! A template's part cut into text, tags and outputs, and the inside of a mark cut into tokens.

#![tactic(auto)]

pub mod lengths;
pub mod paths;
pub mod pieces;
pub mod places;
pub mod state;
pub mod tokens;
