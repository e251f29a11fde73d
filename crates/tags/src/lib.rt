//! The arguments of each tag, under the names of the files that take them in liquid-lib.

#![tactic(auto)]

pub mod stdlib;
