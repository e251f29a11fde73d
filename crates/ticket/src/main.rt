//! ticket JOB..: does the actions of jobs, which are read from the files or, where there is none, from standard input.
//! ticket --text JOB..: the same, with nothing but the text of the tickets on standard output, and the rest on standard error.
//! ticket check FILE..: loads each file as a template, and fails where one is refused.

#![tactic(auto)]

mod calls;
mod check;
mod console;
mod contents;
mod cursor;
mod excerpt;
mod faults;
mod filter;
mod found;
mod job;
mod json;
mod layout;
mod load;
mod making;
mod quote;
mod run;
mod show;
mod spelling;
mod state;

use crate::console::Console;
use crate::job::Job;
use std::alloc::Global;
use std::env::Args;
use std::io::Read;
use std::process::ExitCode;
use std::{env, fs, io};

fn main(rt: HostRuntime) -> ExitCode {
    match ticket(&rt) {
        Ok(true) => ExitCode::SUCCESS,
        Ok(false) => ExitCode::FAILURE,
        Err(e) => {
            let _ = eprintln!(rt; "{e}");
            ExitCode::FAILURE
        }
    }
}

// Whether the program ends well.
fn ticket(rt: &HostRuntime) -> anyhow::Result<bool> {
    let mut args = env::args(rt)?;
    match args.nth(1) {
        Some(word) if word.as_str() == "check" => check::check(Console::of_lines(rt), args),
        Some(word) if word.as_str() == "--text" => do_jobs(Console::of_text(rt), args.next(), args),
        path => do_jobs(Console::of_lines(rt), path, args),
    }
}

// Each job begins anew.
fn do_jobs(
    console: Console<'_>,
    first: Option<String>,
    others: Args<Global>,
) -> anyhow::Result<bool> {
    do_job(console, first)?;
    for path in others {
        do_job(console, Some(path))?;
    }
    Ok(true)
}

// What stands before a bad line is done first.
fn do_job(console: Console<'_>, path: Option<String>) -> anyhow::Result<()> {
    let text = read_input(console.rt, path)?;
    let mut job = Job::new(console.heap());
    let read = job.read(console.rt, text.as_slice());
    run::run(console, &job)?;
    read?;
    Ok(())
}

fn read_input(rt: &HostRuntime, path: Option<String>) -> io::Result<Vec<u8>> {
    match path {
        Some(path) => fs::read(rt, path.as_str()),
        None => {
            let mut bytes = Vec::new(rt.alloc());
            rt.stdin().read_to_end(&mut bytes)?;
            Ok(bytes)
        }
    }
}
