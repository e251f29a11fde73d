//! The calls on the tray that is open.

use crate::calls::{laid, maybe};
use crate::words::{Wrong, parsed, text};
use equality::equal;
use std::alloc::Global;
use std::str::SplitWhitespace;
use texts::measure::text_len;
use texts::write::write_text;
use tray::trays::Tray;
use values::finds::find;
use values::steps::{Found, Step, follow};

// Each call names a record first.
pub(crate) fn answer(
    heap: Global,
    tray: &Tray,
    call: &str,
    words: &mut SplitWhitespace<'_>,
) -> Result<String, Wrong> {
    let record = parsed(words)?;
    // A `match` on the words of a language is its table; closures would say no more.
    match call {
        "length" => maybe(heap, text_len(tray, record, parsed(words)?)),
        "text" => laid_text(heap, tray, record, parsed(words)?),
        "find" => maybe(heap, find(tray, record, text(words)?)),
        "index" => came(heap, index(tray, record, parsed(words)?)),
        "name" => came(heap, named(tray, record, text(words)?)),
        "equal" => yes_or_no(heap, equal(tray, record, parsed(words)?)),
        _ => Err(Wrong::Case),
    }
}

fn laid_text(heap: Global, tray: &Tray, record: usize, room: usize) -> Result<String, Wrong> {
    let mut out = vec![in heap; b'x'; room]?;
    let end = write_text(tray, record, out.as_mut_slice());
    laid(heap, end, out.as_slice())
}

fn index(tray: &Tray, record: usize, n: i64) -> Option<Found> {
    follow(tray, record, Step::Number(n))
}

fn named(tray: &Tray, record: usize, name: &[u8]) -> Option<Found> {
    follow(tray, record, Step::Name(name))
}

fn yes_or_no(heap: Global, answer: bool) -> Result<String, Wrong> {
    let word = if answer { "yes" } else { "no" };
    Ok(String::from_str(heap, word)?)
}

fn came(heap: Global, found: Option<Found>) -> Result<String, Wrong> {
    match found {
        Some(Found::Record(i)) => Ok(format!(in heap; "record {i}")?),
        Some(Found::Size(n)) => Ok(format!(in heap; "size {n}")?),
        None => Ok(String::from_str(heap, "none")?),
    }
}
