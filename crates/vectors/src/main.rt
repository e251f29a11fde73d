//! vectors TABLE: loads the templates of a table, and says which come out otherwise than is written beside them.

#![tactic(auto)]

mod faults;
mod loads;
mod tables;
mod templates;

use crate::faults::Fault;
use crate::loads::try_all;
use crate::tables::read_table;
use std::process::ExitCode;
use std::{env, fs};

fn main(rt: HostRuntime) -> ExitCode {
    match vectors(&rt) {
        Ok(true) => ExitCode::SUCCESS,
        Ok(false) => ExitCode::FAILURE,
        Err(e) => {
            let _ = eprintln!(rt; "{e}");
            ExitCode::FAILURE
        }
    }
}

// Whether all came out as expected.
fn vectors(rt: &HostRuntime) -> anyhow::Result<bool> {
    let mut args = env::args(rt)?;
    let path = args.nth(1).ok_or(Fault::NoTable)?;
    let table = fs::read_to_string(rt, path.as_str())?;
    let subjects = read_table(rt.alloc(), table.as_str())?;
    let mut vectors = 0usize;
    let mut wrong = 0usize;
    for subject in &subjects {
        let tally = try_all(rt, subject)?;
        let name = subject.name;
        println!(rt; "{name}: {} right", tally.right)?;
        vectors = vectors
            .saturating_add(tally.right)
            .saturating_add(tally.wrong);
        wrong = wrong.saturating_add(tally.wrong);
    }
    println!(rt; "{vectors} vectors, {wrong} wrong")?;
    Ok(wrong == 0)
}
