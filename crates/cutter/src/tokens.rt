// The tokens of a mark's inside.
use crate::lengths::Symbol;
use crate::places::{Place, Placed};

pub mod ahead;
pub mod reading;

/// A token as written, with its place.
pub type Word<'a> = Placed<'a>;

/// What a token stands for: a literal with its value (a text without its quotes), a bare name, a path's first name and its steps as written, the two bounds of a range, or a symbol.
#[derive(Clone, Copy, Debug, PartialEq, Eq)]
pub enum Token<'a> {
    Nil,
    Boolean(bool),
    Number(i64),
    Text(&'a [u8]),
    Name(&'a [u8]),
    Path(&'a [u8], &'a [u8]),
    Range(Word<'a>, Word<'a>),
    Symbol(Symbol),
}

/// Refusal 4: at `place` no token can be cut.
#[derive(Clone, Copy, Debug, PartialEq, Eq)]
pub struct NoToken {
    pub place: usize,
}

/// Bytes, cut into tokens up to a place.
#[derive(Clone, Copy, Debug, PartialEq, Eq)]
pub struct Cursor<'a> {
    rest: Place<'a>,
}
