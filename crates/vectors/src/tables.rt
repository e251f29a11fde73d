//! The table, line by line.

use crate::faults::Fault;
use crate::templates::template;
use std::alloc::Global;

// A part that is loaded, what is expected, and the number of the line that says so.
#[derive(Clone, Copy)]
pub(crate) struct Load<'a> {
    pub(crate) line: usize,
    pub(crate) place: usize,
    pub(crate) len: usize,
    pub(crate) expected: &'a str,
}

// A source text, and the parts of it that are loaded into one sheet.
#[derive(Drop)]
pub(crate) struct Source<'a> {
    pub(crate) text: Vec<u8>,
    pub(crate) loads: Vec<Load<'a>>,
}

// What stands behind a line `[NAME]`.
#[derive(Drop)]
pub(crate) struct Subject<'a> {
    pub(crate) name: &'a str,
    pub(crate) sources: Vec<Source<'a>>,
}

pub(crate) fn read_table<'a>(heap: Global, table: &'a str) -> Result<Vec<Subject<'a>>, Fault> {
    let mut subjects = Vec::new(heap);
    for (before, line) in table.lines().enumerate() {
        read_line(heap, before.saturating_add(1), line, &mut subjects)?;
    }
    Ok(subjects)
}

// Blank lines and lines that begin with `#` are comments.
fn read_line<'a>(
    heap: Global,
    line: usize,
    text: &'a str,
    subjects: &mut Vec<Subject<'a>>,
) -> Result<(), Fault> {
    if text.is_empty() || text.starts_with('#') {
        return Ok(());
    }
    if let Some(name) = subject_in(text) {
        let sources = Vec::new(heap);
        subjects.push(Subject { name, sources })?;
        return Ok(());
    }
    let subject = subjects.last_mut().ok_or(Fault::Line(line))?;
    read_vector(heap, line, text, &mut subject.sources)
}

fn subject_in(text: &str) -> Option<&str> {
    text.strip_prefix('[')?.strip_suffix(']')
}

// `source TEMPLATE`, or what is loaded and, behind a tab, what is expected.
fn read_vector<'a>(
    heap: Global,
    line: usize,
    text: &'a str,
    sources: &mut Vec<Source<'a>>,
) -> Result<(), Fault> {
    if let Some(form) = text.strip_prefix("source ") {
        sources.push(Source {
            text: template(heap, line, form)?,
            loads: Vec::new(heap),
        })?;
        return Ok(());
    }
    let (what, expected) = text.split_once('\t').ok_or(Fault::Line(line))?;
    match what.strip_prefix("load ") {
        Some(part) => {
            let source = sources.last_mut().ok_or(Fault::Line(line))?;
            source.loads.push(part_in(line, part, expected)?)?;
        }
        None => sources.push(alone(heap, line, what, expected)?)?,
    }
    Ok(())
}

// `PLACE LEN`
fn part_in<'a>(line: usize, part: &str, expected: &'a str) -> Result<Load<'a>, Fault> {
    let (place, len) = part.split_once(' ').ok_or(Fault::Line(line))?;
    Ok(Load {
        line,
        place: number(line, place)?,
        len: number(line, len)?,
        expected,
    })
}

fn number(line: usize, digits: &str) -> Result<usize, Fault> {
    digits.parse().map_err(|_| Fault::Line(line))
}

// A template that is the whole source.
fn alone<'a>(
    heap: Global,
    line: usize,
    form: &str,
    expected: &'a str,
) -> Result<Source<'a>, Fault> {
    let text = template(heap, line, form)?;
    let mut loads = Vec::new(heap);
    loads.push(Load {
        line,
        place: 0,
        len: text.len(),
        expected,
    })?;
    Ok(Source { text, loads })
}
