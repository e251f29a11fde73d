//! The loads of a subject.

use crate::faults::Fault;
use crate::tables::{Load, Source, Subject};
use arguments::refusals::Stop;
use banks::sums::Sums;
use sheet::sheet::Sheet;
use std::alloc::{AllocError, Global};

// How many came out as expected, and how many otherwise.
#[derive(Clone, Copy)]
pub(crate) struct Tally {
    pub(crate) right: usize,
    pub(crate) wrong: usize,
}

// What a sheet holds.
#[derive(Clone, Copy, PartialEq, Eq)]
struct Counts {
    templates: usize,
    nodes: usize,
    names: usize,
    cycles: usize,
}

pub(crate) fn try_all(rt: &HostRuntime, subject: &Subject<'_>) -> anyhow::Result<Tally> {
    let mut tally = Tally { right: 0, wrong: 0 };
    for source in &subject.sources {
        try_source(rt, source, &mut tally)?;
    }
    Ok(tally)
}

fn try_source(rt: &HostRuntime, source: &Source<'_>, tally: &mut Tally) -> anyhow::Result<()> {
    let mut sheet = Sheet::new(rt.alloc(), source.text.as_slice());
    for load in &source.loads {
        let answer = found(rt.alloc(), &mut sheet, load)?;
        if answer.as_str() == load.expected {
            tally.right = tally.right.saturating_add(1);
        } else {
            tally.wrong = tally.wrong.saturating_add(1);
            println!(rt;
                "line {}: expected {}, found {answer}",
                load.line, load.expected
            )?;
        }
    }
    Ok(())
}

impl Counts {
    fn of(sheet: &Sheet<'_>) -> Counts {
        Counts {
            templates: sheet.template_count(),
            nodes: sheet.node_count(),
            names: sheet.name_count(),
            cycles: sheet.cycle_count(),
        }
    }
}

// What a load answers, as the table writes it. One that is accepted adds one template, and one that is refused adds nothing.
fn found(heap: Global, sheet: &mut Sheet<'_>, load: &Load<'_>) -> Result<String, Fault> {
    let before = Counts::of(sheet);
    let answer = sheet.load(load.place, load.len, &mut Sums);
    let after = Counts::of(sheet);
    Ok(match answer {
        Ok(number) => accepted(heap, number, before, after)?,
        Err(Stop::Refused(refusal, place)) => refused(
            heap,
            refusal.number(),
            place,
            before == after,
        )?,
        Err(Stop::Memory) => String::from_str(heap, "no memory")?,
    })
}

fn accepted(
    heap: Global,
    number: usize,
    before: Counts,
    after: Counts,
) -> Result<String, AllocError> {
    let Counts {
        templates,
        nodes,
        names,
        cycles,
    } = after;
    if number == before.templates && templates == number.saturating_add(1) {
        format!(in heap; "ok nodes={nodes} names={names} cycles={cycles}")
    } else {
        format!(in heap; "ok as template {number} of {templates}")
    }
}

fn refused(heap: Global, number: u8, place: usize, same: bool) -> Result<String, AllocError> {
    if same {
        format!(in heap; "refused {number} place={place}")
    } else {
        format!(in heap; "refused {number} place={place}, but the sheet has changed")
    }
}
