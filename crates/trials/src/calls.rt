//! The calls that a case can make, and their answers as text.

use crate::words::{Wrong, hex, parsed, perhaps, text, word};
use crate::{cutting, reading, sums};
use numerals::{read_whole, write_whole};
use rows::numbers::Numbers;
use rows::row::Row;
use rows::window::Window;
use std::alloc::{AllocError, Global};
use std::fmt::{Display, Write};
use std::str::SplitWhitespace;
use tray::records::OpenError;
use tray::trays::Tray;

// The bytes of the tray that was opened last, which the cases read.
#[derive(Drop)]
pub(crate) struct Calls {
    heap: Global,
    records: Vec<u8>,
    cited: Vec<u8>,
}

impl Calls {
    pub(crate) fn new(heap: Global) -> Calls {
        Calls {
            heap,
            records: Vec::new(heap),
            cited: Vec::new(heap),
        }
    }

    // What the call of a case answers.
    pub(crate) fn answer(&mut self, call: &str) -> Result<String, Wrong> {
        let heap = self.heap;
        let mut words = call.split_whitespace();
        let name = word(&mut words)?;
        // A `match` on the words of a language is its table; closures would say no more.
        match name {
            "write" => write(heap, &mut words),
            "read" => maybe(heap, read_whole(text(&mut words)?)),
            "window" => window(heap, &mut words),
            "sum" => sums::sum(heap, &mut words),
            "cut" => cutting::cut(heap, text(&mut words)?),
            "tokens" => cutting::tokens(heap, text(&mut words)?),
            "open" => self.open(&mut words),
            "nils" => nils(heap, parsed(&mut words)?),
            "letters" => letters(heap, parsed(&mut words)?),
            _ => self.read(name, &mut words),
        }
    }

    fn open(&mut self, words: &mut SplitWhitespace<'_>) -> Result<String, Wrong> {
        let records = hex(self.heap, words)?;
        let cited = Vec::from_slice(self.heap, text(words)?)?;
        let answer = counted(self.heap, records.as_slice(), cited.as_slice())?;
        self.records = records;
        self.cited = cited;
        Ok(answer)
    }

    fn read(&self, name: &str, words: &mut SplitWhitespace<'_>) -> Result<String, Wrong> {
        let tray = Tray::open(self.heap, self.records.as_slice(), self.cited.as_slice()).map_err(
            |_| Wrong::Case,
        )?;
        reading::answer(self.heap, &tray, name, words)
    }
}

pub(crate) fn maybe<T: Display + Drop>(heap: Global, value: Option<T>) -> Result<String, Wrong> {
    match value {
        Some(value) => Ok(format!(in heap; "{value}")?),
        None => Ok(String::from_str(heap, "none")?),
    }
}

// A length or `none`, and then the buffer.
pub(crate) fn laid(heap: Global, end: Option<usize>, out: &[u8]) -> Result<String, Wrong> {
    let mut answer = maybe(heap, end)?;
    answer.push(' ')?;
    push_bytes(&mut answer, out)?;
    Ok(answer)
}

// Each byte as the character with its number.
pub(crate) fn push_bytes(answer: &mut String, bytes: &[u8]) -> Result<(), AllocError> {
    for b in bytes {
        answer.push(char::from(*b))?;
    }
    Ok(())
}

fn write(heap: Global, words: &mut SplitWhitespace<'_>) -> Result<String, Wrong> {
    let n = parsed(words)?;
    let mut out = vec![in heap; b'x'; parsed(words)?]?;
    let end = write_whole(n, out.as_mut_slice());
    laid(heap, end, out.as_slice())
}

// window FROM TO OFFSET LIMIT ORDER: the items of a window over counted numbers.
fn window(heap: Global, words: &mut SplitWhitespace<'_>) -> Result<String, Wrong> {
    let from = parsed(words)?;
    let to = parsed(words)?;
    let Some(numbers) = Numbers::new(from, to) else {
        return Ok(String::from_str(heap, "too many")?);
    };
    let offset = perhaps(words)?;
    let limit = perhaps(words)?;
    let reversed = word(words)? == "reversed";
    listed(heap, &Window::new(numbers, offset, limit, reversed))
}

fn listed<R: Row<Item = i64>>(heap: Global, row: &R) -> Result<String, Wrong> {
    let count = row.count();
    let mut answer = format!(in heap; "{count}:")?;
    for k in 0..count.min(5) {
        if let Some(item) = row.item(k) {
            write!(answer, " {item}")?;
        }
    }
    Ok(answer)
}

fn counted(heap: Global, bytes: &[u8], cited: &[u8]) -> Result<String, Wrong> {
    match Tray::open(heap, bytes, cited) {
        Ok(tray) => {
            let count = tray.count();
            Ok(format!(in heap; "{count}")?)
        }
        Err(OpenError::Refused) => Ok(String::from_str(heap, "refused")?),
        Err(OpenError::Memory) => Err(Wrong::Memory),
    }
}

// A tray whose one host name, the empty text, is an array of nils.
fn nils(heap: Global, count: usize) -> Result<String, Wrong> {
    let [low, high, ..] = count.to_le_bytes();
    let mut bytes = Vec::from_slice(heap, &[5, 1, 0, 1, 0, 3, 0, 0, 0, 0, 4, 3, 0, low, high])?;
    bytes.resize(bytes.len().saturating_add(count), 0)?;
    counted(heap, bytes.as_slice(), b"")
}

// A tray with a text of that many letters.
fn letters(heap: Global, count: usize) -> Result<String, Wrong> {
    let [low, high, ..] = count.to_le_bytes();
    let cited = vec![in heap; b'a'; count]?;
    counted(heap, &[5, 0, 0, 0, 0, 3, 0, 0, low, high], cited.as_slice())
}
