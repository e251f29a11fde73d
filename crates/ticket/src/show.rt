//! What a tray holds, line by line.

ghost use Rattle.std.specs.Prelude.{◌≡◌, ◌++◌, IfOk, OnOk};
ghost use Rattle.ticket.specs.Names.{begins, goes_on, all_go_on, is_name};
ghost use Rattle.ticket.specs.Show.{kind_word, shown_name, name_line, entry_line};
ghost use Rattle.values.specs.Meaning.{value_of};
ghost use Rattle.values.specs.Value.{written};

use crate::console::Console;
use crate::quote::push_quoted;
use std::alloc::{AllocError, Global};
use std::io;
use texts::measure::text_len;
use texts::write::write_text;
use tray::records::Record;
use tray::trays::Tray;

// Prints a line for each host name.
pub(crate) fn show(console: Console<'_>, tray: &Tray) -> io::Result<()> {
    let Record::Object(names) = tray.record(0) else {
        return Ok(());
    };
    if names.count == 0 {
        return console.say(b"show nothing: the tray has no names\n");
    }
    for j in 0..names.count {
        let key = names.key(j);
        let line = entry_line(console.heap(), tray, key, key + 1)?;
        console.say(line.as_slice())?;
    }
    Ok(())
}

// The line of an entry, whose key and value are these records.
fn entry_line(heap: Global, tray: &Tray, key: usize, value: usize) -> Result<Vec<u8>, AllocError>
    ensures { IfOk result (λ v. v.items ≡ entry_line tray.now key value) }
{
    let text = value_text(heap, tray, value)?;
    name_line(
        heap,
        tray.text_of(key),
        kind_word(tray.record(value)),
        text.as_slice(),
    )
}

// The text of the value record `i`.
fn value_text(heap: Global, tray: &Tray, i: usize) -> Result<Vec<u8>, AllocError>
    ensures { IfOk result (λ v. v.items ≡ written (value_of tray.now i)) }
{
    // A text of more than `usize::MAX` bytes fits in no memory: to the caller it is an allocation that failed.
    let len = text_len(tray, i, usize::MAX).ok_or(AllocError)?;
    let mut text = vec![in heap; 0; len]?;
    write_text(tray, i, text.as_mut_slice()).unwrap();
    Ok(text)
}

fn name_line(heap: Global, name: &[u8], kind: &str, text: &[u8]) -> Result<Vec<u8>, AllocError>
    ensures { IfOk result (λ v. v.items ≡ name_line name.now kind.now text.now) }
{
    let mut line = Vec::new(heap);
    line.extend_from_slice(b"show ")?;
    push_name(&mut line, name)?;
    line.extend_from_slice(b" ")?;
    line.extend_from_slice(kind.as_bytes())?;
    line.extend_from_slice(b" text=")?;
    push_quoted(&mut line, text)?;
    line.extend_from_slice(b"\n")?;
    Ok(line)
}

// A name stands bare, any other text in quotes.
fn push_name(out: &mut Vec<u8>, text: &[u8]) -> Result<(), AllocError>
    ensures { OnOk result (out.new.items ≡ out.old.items ++ shown_name text.now) }
{
    if is_name(text) {
        out.extend_from_slice(text)
    } else {
        push_quoted(out, text)
    }
}

// What is printed bare. The cutter's names have the same bytes, but are private there, and this program cuts no template.
fn is_name(text: &[u8]) -> bool
    ensures { result ≡ is_name text.now }
{
    text.first().is_some_and(|b| begins_name(*b)) && all_go_on(text)
}

fn all_go_on(text: &[u8]) -> bool
    ensures { result ≡ all_go_on text.now }
{
    text.iter().all(|b| goes_on(*b))
}

fn begins_name(b: u8) -> bool
    ensures { result ≡ begins b }
{
    matches!(b, b'A'..=b'Z' | b'_' | b'a'..=b'z')
}

fn goes_on(b: u8) -> bool
    ensures { result ≡ goes_on b }
{
    matches!(b, b'-' | b'0'..=b'9' | b'A'..=b'Z' | b'_' | b'a'..=b'z')
}

fn kind_word(it: Record) -> &'static str
    ensures { result.now ≡ kind_word it }
{
    match it {
        Record::Nil => "nil",
        Record::Boolean(_) => "boolean",
        Record::Whole(_) => "number",
        Record::Text(_) => "text",
        Record::Array(_) => "array",
        Record::Object(_) => "object",
    }
}
