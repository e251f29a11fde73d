//! Templates read into a sheet.

#![tactic(auto)]

mod blocks;
mod books;
mod elements;
mod leaves;
mod loading;
mod names;
mod parser;
mod parts;
mod pieces;
mod reading;
pub mod sheet;
mod stdlib;
mod table;
pub mod templates;
