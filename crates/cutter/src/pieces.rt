// A part under the cutter, and its pieces.
ghost use Rattle.std.specs.Prelude.{◌≡◌, true};
ghost use Rattle.cutter.specs.Scan.{placed};

use crate::places::{Place, Placed};
use crate::state::{Kind, State};

pub mod next;

/// A piece of a part, with the place where it begins: a text, or a mark with the bytes between its opening and its closing mark.
#[derive(Clone, Copy, Debug, PartialEq, Eq)]
pub enum Piece<'a> {
    Text(Placed<'a>),
    Mark(Kind, Placed<'a>),
}

/// Refusal 3: the mark that begins at `place` is not closed.
#[derive(Clone, Copy, Debug, PartialEq, Eq)]
pub struct Unclosed {
    pub place: usize,
}

/// Bytes, cut up to `start`, where a piece begins that is read up to a place behind it.
#[derive(Debug, PartialEq, Eq, Drop)]
pub struct Cutter<'a> {
    rest: Place<'a>,
    start: usize,
    state: State,
    ghost placed: { placed state start rest.at ≡ true },
}
