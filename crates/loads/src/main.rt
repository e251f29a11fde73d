//! loads FILE COUNT: loads the file as a template so many times, each time into a sheet of its own, and tells what came of it.
//! It is for measuring: the time is taken outside.

#![tactic(auto)]

use banks::sums::Sums;
use numerals::read_whole;
use sheet::sheet::Sheet;
use std::{env, fs};

fn main(rt: HostRuntime) -> anyhow::Result<()> {
    loads(&rt)
}

fn loads(rt: &HostRuntime) -> anyhow::Result<()> {
    let mut args = env::args(rt)?;
    let (Some(path), Some(count)) = (args.nth(1), args.next()) else {
        println!(rt; "loads FILE COUNT")?;
        return Ok(());
    };
    let text = fs::read(rt, path.as_str())?;
    let count = read_whole(count.as_bytes()).unwrap_or(0);
    let mut accepted = 0usize;
    let mut nodes = 0usize;
    for _ in 0..count {
        let mut sheet = Sheet::new(rt.alloc(), text.as_slice());
        if sheet.load(0, text.len(), &mut Sums).is_ok() {
            accepted = accepted.saturating_add(1);
        }
        nodes = sheet.node_count();
    }
    println!(rt;
        "{count} loads of {} bytes, {accepted} accepted, {nodes} nodes each",
        text.len()
    )?;
    Ok(())
}
