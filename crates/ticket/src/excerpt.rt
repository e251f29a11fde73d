//! A place in a template, as its author finds it.

ghost use Rattle.std.specs.Prelude.{◌≡◌, ◌+◌, ◌++◌, OnOk, length, map, count_by};
ghost use Rattle.std.specs.List.{flat_map, before_first, after_last};
ghost use Rattle.ticket.specs.Excerpt.{is_end, line_of, before_of, behind_of, spot_words, plain, blank, excerpt};

use std::alloc::{AllocError, Global};

// The line of a place: its number from 1, its bytes before the place, and those from there on.
#[derive(Clone, Copy)]
pub(crate) struct Spot<'a> {
    pub(crate) line: usize,
    pub(crate) before: &'a [u8],
    pub(crate) behind: &'a [u8],
}

// The line of `place` in `text`, or of its end where the place lies past it.
pub(crate) fn spot_at(text: &[u8], place: usize) -> Spot<'_>
    ensures line { result.line ≡ line_of place text.now }
    ensures before { result.before.now ≡ before_of place text.now }
    ensures behind { result.behind.now ≡ behind_of place text.now }
{
    let (before, behind) = text.split_at(place.min(text.len()));
    Spot {
        line: count_lines(before),
        before: last_line(before),
        behind: first_line(behind),
    }
}

// Loops, since more is proved of them than of `split` with a closure.
fn count_lines(text: &[u8]) -> usize
    ensures { result ≡ count_by is_end text.now + 1 }
{
    let mut lines = 1;
    for b in text {
        if *b == b'\n' {
            lines += 1;
        }
    }
    lines
}

fn first_line(text: &[u8]) -> &[u8]
    ensures { result.now ≡ before_first is_end text.now }
{
    let mut to = 0;
    while to < text.len() && text[to] != b'\n' {
        to += 1;
    }
    &text[..to]
}

fn last_line(text: &[u8]) -> &[u8]
    ensures { result.now ≡ after_last is_end text.now }
{
    let mut from = text.len();
    while from > 0 && text[from - 1] != b'\n' {
        from -= 1;
    }
    &text[from..]
}

// Writes a place, its line and its column.
pub(crate) fn push_place(
    heap: Global,
    out: &mut Vec<u8>,
    place: usize,
    spot: Spot<'_>,
) -> Result<(), AllocError>
    ensures { OnOk result (out.new.items ≡ out.old.items ++ spot_words place spot.entry.line (length spot.entry.before.now)) }
{
    let line = spot.line;
    let column = spot.before.len() + 1;
    let words = format!(in heap; " place={place} line={line} column={column}")?;
    out.extend_from_slice(words.as_bytes())
}

// Writes the line of a place, and a caret under the place.
pub(crate) fn push_excerpt(out: &mut Vec<u8>, spot: Spot<'_>) -> Result<(), AllocError>
    ensures { OnOk result (out.new.items ≡ out.old.items ++ excerpt spot.entry.before.now spot.entry.behind.now) }
{
    out.extend_from_slice(b"  ")?;
    push_plain(out, spot.before)?;
    push_plain(out, spot.behind)?;
    out.extend_from_slice(b"\n  ")?;
    push_blanks(out, spot.before)?;
    out.extend_from_slice(b"^\n")
}

// Writes `text`, each control byte as a `?`.
pub(crate) fn push_plain(out: &mut Vec<u8>, text: &[u8]) -> Result<(), AllocError>
    ensures { OnOk result (out.new.items ≡ out.old.items ++ map plain text.now) }
{
    for b in text {
        out.push(plain(*b))?;
    }
    Ok(())
}

fn plain(b: u8) -> u8
    ensures { result ≡ plain b }
{
    match b {
        0..=31 | 127 => b'?',
        _ => b,
    }
}

// Writes a blank for each character of `text`.
fn push_blanks(out: &mut Vec<u8>, text: &[u8]) -> Result<(), AllocError>
    ensures { OnOk result (out.new.items ≡ out.old.items ++ flat_map blank text.now) }
{
    for b in text {
        push_blank(out, *b)?;
    }
    Ok(())
}

// Bytes that go on in a character of UTF-8 get none.
fn push_blank(out: &mut Vec<u8>, b: u8) -> Result<(), AllocError>
    ensures { OnOk result (out.new.items ≡ out.old.items ++ blank b) }
{
    match b {
        128..=191 => Ok(()),
        _ => out.extend_from_slice(b" "),
    }
}
