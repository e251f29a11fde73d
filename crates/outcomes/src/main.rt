//! outcomes TABLE: renders the cases of a table, and says which come out otherwise than is written beside them.

#![tactic(auto)]

mod answers;
mod cases;
mod faults;
mod memory;
mod quoted;
mod runs;
mod trays;

use crate::cases::read_table;
use crate::faults::Fault;
use crate::runs::run_case;
use crate::trays::read_trays;
use std::process::ExitCode;
use std::{env, fs};

fn main(rt: HostRuntime) -> ExitCode {
    match outcomes(&rt) {
        Ok(true) => ExitCode::SUCCESS,
        Ok(false) => ExitCode::FAILURE,
        Err(e) => {
            let _ = eprintln!(rt; "{e}");
            ExitCode::FAILURE
        }
    }
}

// Whether all came out as expected.
fn outcomes(rt: &HostRuntime) -> anyhow::Result<bool> {
    let mut args = env::args(rt)?;
    let path = args.nth(1).ok_or(Fault::NoTable)?;
    let table = fs::read_to_string(rt, path.as_str())?;
    let cases = read_table(rt.alloc(), table.as_str())?;
    let trays = read_trays(rt)?;
    let mut acts = 0usize;
    let mut wrong = 0usize;
    for case in &cases {
        acts = acts.saturating_add(case.steps.len());
        wrong = wrong.saturating_add(run_case(rt, &trays, case)?);
    }
    println!(rt; "{} cases, {acts} acts, {wrong} wrong", cases.len())?;
    Ok(wrong == 0)
}
