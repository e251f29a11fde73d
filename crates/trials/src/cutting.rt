//! Templates cut into pieces, and insides into tokens.

use crate::calls::push_bytes;
use crate::words::Wrong;
use cutter::pieces::{Cutter, Piece};
use cutter::places::Placed;
use cutter::state::Kind;
use cutter::tokens::{Cursor, Word};
use std::alloc::{AllocError, Global};
use std::fmt::Write;

// A part of what is cut, and what it is.
#[derive(Clone, Copy, Debug, PartialEq, Eq)]
struct Part<'a> {
    what: &'a str,
    placed: Placed<'a>,
}

fn push_part(answer: &mut String, part: Part<'_>) -> Result<(), AllocError> {
    write!(answer, "{} {} ", part.what, part.placed.place)?;
    push_bytes(answer, part.placed.bytes)?;
    answer.push_str("; ")
}

// The parts of `bytes` that `next` gives one after another, and `end`; an `Err` is the last part.
fn listed<'a, F: FnMut() -> Result<Option<Part<'a>>, Part<'a>>>(
    heap: Global,
    bytes: &'a [u8],
    mut next: F,
) -> Result<String, Wrong>
    requires { F.IsAlwaysCallable next }
{
    let mut answer = String::new(heap);
    // There are no more parts than bytes.
    for _ in 0..bytes.len() {
        match next() {
            Ok(Some(part)) => push_part(&mut answer, part)?,
            Ok(None) => break,
            Err(last) => {
                push_part(&mut answer, last)?;
                break;
            }
        }
    }
    answer.push_str("end")?;
    Ok(answer)
}

// A place where nothing is cut.
fn refused<'a>(what: &'a str, place: usize) -> Part<'a> {
    Part {
        what,
        placed: Placed { place, bytes: b"" },
    }
}

fn of_piece<'a>(piece: Piece<'a>) -> Part<'a> {
    match piece {
        Piece::Text(placed) => Part {
            what: "text",
            placed,
        },
        Piece::Mark(kind, placed) => Part {
            what: word_of(kind),
            placed,
        },
    }
}

fn word_of(kind: Kind) -> &'static str {
    match kind {
        Kind::Tag => "tag",
        Kind::Output => "output",
    }
}

fn of_word<'a>(word: Word<'a>) -> Part<'a> {
    Part {
        what: "token",
        placed: word,
    }
}

// Each piece with its place, and `end` or the place of a mark that is not closed.
pub(crate) fn cut(heap: Global, part: &[u8]) -> Result<String, Wrong> {
    let mut cutter = Cutter::new(part);
    listed(heap, part, || {
        let next = cutter.next().map_err(|e| refused("unclosed", e.place));
        next.map(|piece| piece.map(of_piece))
    })
}

// Each token with its place, and `end` or the place where there is none.
pub(crate) fn tokens(heap: Global, inside: &[u8]) -> Result<String, Wrong> {
    let mut cursor = Cursor::new(inside);
    listed(heap, inside, || {
        let next = cursor.next().map_err(|e| refused("none", e.place));
        next.map(|word| word.map(of_word))
    })
}
