//! Runs the cases of cases.txt: each line has a call with its arguments, and behind ` = ` its answer.

#![tactic(auto)]

mod calls;
mod cutting;
mod reading;
mod sums;
mod words;

use crate::calls::Calls;
use crate::words::Wrong;
use std::fs;

fn main(rt: HostRuntime) -> anyhow::Result<()> {
    trials(&rt)
}

fn trials(rt: &HostRuntime) -> anyhow::Result<()> {
    let content = fs::read_to_string(rt, "cases.txt")?;
    let mut calls = Calls::new(rt.alloc());
    let mut cases = 0usize;
    let mut wrong = 0usize;
    for line in content.lines() {
        if let Some((call, expected)) = line.split_once(" = ") {
            cases = cases.saturating_add(1);
            let answer = calls.answer(call)?;
            if answer.as_str() != expected {
                wrong = wrong.saturating_add(1);
                println!(rt; "{line}: answered {answer}")?;
            }
        }
    }
    println!(rt; "{cases} cases, {wrong} wrong")?;
    Ok(())
}
