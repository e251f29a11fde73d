//! Calls on the sheet of a job, and what is printed of them.

ghost use Rattle.std.specs.Prelude.{◌≡◌, ◌++◌, IfOk, OnOk};
ghost use Rattle.std.specs.List.{flat_map};
ghost use Rattle.ticket.specs.Calls.{text_in, refused_words, put_words, number_words, block_mark, trail_words, where_words, fault_words, page_words, call_line};

use crate::excerpt::{push_place, push_plain, spot_at};
use crate::quote::push_quoted;
use frames::frame::TrailRecord;
use held::faults::Fault;
use renderer::call::{Call, Page};
use renderer::calls::{Faulted, Refused};
use std::alloc::{AllocError, Global};

// A template: the name that it is asked for by, its place in the source, and its text.
#[derive(Clone, Copy)]
pub(crate) struct Asked<'a> {
    pub(crate) name: &'a [u8],
    pub(crate) place: usize,
    pub(crate) text: &'a [u8],
}

impl Asked<'static> {
    // Of a call that renders no template.
    pub(crate) fn nothing() -> Asked<'static> {
        Asked {
            name: &[],
            place: 0,
            text: &[],
        }
    }
}

// The line of a call with its result; `asked` is the template of a call that renders one.
pub(crate) fn call_line(
    heap: Global,
    asked: Asked<'_>,
    call: &Call<'_>,
) -> Result<Vec<u8>, AllocError>
    ensures { IfOk result (λ v. v.items ≡ call_line asked.entry call.now) }
{
    let mut line = Vec::new(heap);
    match call {
        Call::Put(putting) => {
            line.extend_from_slice(b"put ")?;
            push_plain(&mut line, putting.name)?;
            push_put(heap, &mut line, putting.answer)?;
        }
        Call::Render(page) => {
            line.extend_from_slice(b"render ")?;
            push_plain(&mut line, asked.name)?;
            push_page(heap, &mut line, asked, page)?;
        }
    }
    Ok(line)
}

fn push_put(heap: Global, line: &mut Vec<u8>, answer: Result<(), Refused>) -> Result<(), AllocError>
    ensures { OnOk result (line.new.items ≡ line.old.items ++ put_words answer) }
{
    match answer {
        Ok(()) => line.extend_from_slice(b" ok\n"),
        Err(refused) => push_refused(heap, line, refused),
    }
}

fn push_refused(heap: Global, line: &mut Vec<u8>, refused: Refused) -> Result<(), AllocError>
    ensures { OnOk result (line.new.items ≡ line.old.items ++ refused_words refused) }
{
    let number = refused.number();
    let words = format!(in heap; " refused {number}\n")?;
    line.extend_from_slice(words.as_bytes())
}

fn push_page(
    heap: Global,
    line: &mut Vec<u8>,
    asked: Asked<'_>,
    page: &Page<'_>,
) -> Result<(), AllocError>
    ensures { OnOk result (line.new.items ≡ line.old.items ++ page_words asked.entry page.now) }
{
    let text = text_in(page.buffer.as_slice());
    match page.answer {
        Ok(None) => {
            line.extend_from_slice(b" ok text=")?;
            push_quoted(line, text)?;
            line.extend_from_slice(b"\n")
        }
        Ok(Some(faulted)) => push_fault(heap, line, asked, text, page.trail.as_slice(), faulted),
        Err(refused) => push_refused(heap, line, refused),
    }
}

// The text in a buffer: all but the zeros at its end.
pub(crate) fn text_in(buffer: &[u8]) -> &[u8]
    ensures { result.now ≡ text_in buffer.now }
{
    let mut to = buffer.len();
    while to > 0 && buffer[to - 1] == 0 {
        to -= 1;
    }
    &buffer[..to]
}

// A fault behind some text.
fn push_fault(
    heap: Global,
    line: &mut Vec<u8>,
    asked: Asked<'_>,
    text: &[u8],
    trail: &[TrailRecord],
    faulted: Faulted,
) -> Result<(), AllocError>
    ensures { OnOk result (line.new.items ≡ line.old.items ++ fault_words asked.entry text.now trail.now faulted) }
{
    push_number(heap, line, faulted.fault)?;
    line.extend_from_slice(b" text=")?;
    push_quoted(line, text)?;
    push_where(heap, line, asked, faulted.place, trail)
}

// The place of a fault and those of the blocks around it, counted from the beginning of the template.
fn push_where(
    heap: Global,
    line: &mut Vec<u8>,
    asked: Asked<'_>,
    place: usize,
    trail: &[TrailRecord],
) -> Result<(), AllocError>
    ensures { OnOk result (line.new.items ≡ line.old.items ++ where_words asked.entry place trail.now) }
{
    let place = place.saturating_sub(asked.place);
    push_place(heap, line, place, spot_at(asked.text, place))?;
    line.extend_from_slice(b" trail=[")?;
    push_trail(heap, line, asked.place, trail)?;
    line.extend_from_slice(b"]\n")
}

// The number of a fault, and of a filter's its cause.
fn push_number(heap: Global, line: &mut Vec<u8>, fault: Fault) -> Result<(), AllocError>
    ensures { OnOk result (line.new.items ≡ line.old.items ++ number_words fault) }
{
    let number = fault.number();
    let words = format!(in heap; " fault {number}")?;
    line.extend_from_slice(words.as_bytes())?;
    match fault.cause() {
        Some(cause) => {
            let cause = cause.number();
            let words = format!(in heap; ".{cause}")?;
            line.extend_from_slice(words.as_bytes())
        }
        None => Ok(()),
    }
}

// The blocks of a trail, with commas between them.
fn push_trail(
    heap: Global,
    line: &mut Vec<u8>,
    from: usize,
    trail: &[TrailRecord],
) -> Result<(), AllocError>
    ensures { OnOk result (line.new.items ≡ line.old.items ++ trail_words from trail.now) }
{
    let mut marks = Vec::new(heap);
    push_marks(heap, &mut marks, from, trail)?;
    line.extend_from_slice(marks.as_slice().get(1..).unwrap_or(&[]))
}

// The same, with a comma before each.
fn push_marks(
    heap: Global,
    out: &mut Vec<u8>,
    from: usize,
    trail: &[TrailRecord],
) -> Result<(), AllocError>
    ensures { OnOk result (out.new.items ≡ out.old.items ++ flat_map (block_mark from) trail.now) }
{
    for block in trail {
        push_mark(heap, out, from, *block)?;
    }
    Ok(())
}

fn push_mark(
    heap: Global,
    out: &mut Vec<u8>,
    from: usize,
    block: TrailRecord,
) -> Result<(), AllocError>
    ensures { OnOk result (out.new.items ≡ out.old.items ++ block_mark from block) }
{
    match block {
        TrailRecord::Blank => Ok(()),
        TrailRecord::Stands { place, visit } => {
            let place = place.saturating_sub(from);
            let words = format!(in heap; ",{place}:{visit}")?;
            out.extend_from_slice(words.as_bytes())
        }
    }
}
