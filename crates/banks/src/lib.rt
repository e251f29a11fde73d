//! Filter banks: what a bank is, the bank of sums, the bank of phrases, two banks side by side, and the bank that knows no name.

#![tactic(auto)]

pub mod answers;
pub mod bank;
pub mod causes;
pub mod joined;
pub mod no_bank;
pub mod operands;
pub mod phrases;
pub mod sums;
#[cfg(test)]
mod tests;
