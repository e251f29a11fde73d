//! Host data: records that a host lays out as bytes, and the text that they cite.

#![tactic(auto)]

mod decode;
mod holders;
mod judging;
mod loading;
pub mod names;
mod opening;
pub mod parts;
pub mod records;
pub mod trays;
