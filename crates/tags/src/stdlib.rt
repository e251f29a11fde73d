pub mod blocks;
pub mod output;
pub mod tags;
