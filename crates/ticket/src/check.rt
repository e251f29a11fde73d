//! Templates of files, for their authors.

use crate::console::Console;
use crate::job::Job;
use crate::run::run;
use anyhow::{Context, bail};
use std::alloc::Global;
use std::env::Args;
use std::fs;

// Loads each file as a template of its name into one sheet. Files before one that cannot be read are loaded first.
pub(crate) fn check(console: Console<'_>, files: Args<Global>) -> anyhow::Result<bool> {
    let mut job = Job::new(console.heap());
    let read = read_files(console.rt, files, &mut job);
    let all_loaded = run(console, &job)?;
    read?;
    Ok(all_loaded)
}

fn read_files(rt: &HostRuntime, files: Args<Global>, job: &mut Job) -> anyhow::Result<()> {
    for file in files {
        let path = file.as_str();
        let bytes = fs::read(rt, path).context(format_args!("{path} cannot be read"))?;
        let name = Vec::from_slice(rt.alloc(), path.as_bytes())?;
        job.add(name, bytes.as_slice())?;
    }
    if job.actions.is_empty() {
        bail!("ticket check FILE..: a file is wanted");
    }
    Ok(())
}
