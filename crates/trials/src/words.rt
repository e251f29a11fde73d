//! The words of a case: numbers, texts between quotes, and bytes in hex.

use hex::FromHexError;
use std::alloc::{AllocError, AllocFailed, Global};
use std::str::{FromStr, SplitWhitespace};
use thiserror::Error;

/// Why a case cannot be run.
#[derive(Clone, Copy, Debug, PartialEq, Eq, Error)]
pub enum Wrong {
    #[error("no memory")]
    Memory,
    #[error("a case that cannot be read")]
    Case,
}

// By hand: `#[from(alloc)]` keeps an `AllocError`, and `OpenError::Memory` and `FromHexError::OutOfMemory` have none.
impl From<AllocError> for Wrong {
    fn from(_e: AllocError) -> Wrong {
        Wrong::Memory
    }
}

impl<T: Drop> From<AllocFailed<T>> for Wrong {
    fn from(_e: AllocFailed<T>) -> Wrong {
        Wrong::Memory
    }
}

impl From<FromHexError> for Wrong {
    fn from(e: FromHexError) -> Wrong {
        match e {
            FromHexError::OutOfMemory => Wrong::Memory,
            _ => Wrong::Case,
        }
    }
}

pub(crate) fn word<'a>(words: &mut SplitWhitespace<'a>) -> Result<&'a str, Wrong> {
    words.next().ok_or(Wrong::Case)
}

// The value that the next word writes.
pub(crate) fn parsed<T: FromStr>(words: &mut SplitWhitespace<'_>) -> Result<T, Wrong>
where
    T::Err: Drop,
{
    word(words)?.parse::<T>().map_err(|_| Wrong::Case)
}

// A number, or `none`.
pub(crate) fn perhaps(words: &mut SplitWhitespace<'_>) -> Result<Option<i64>, Wrong> {
    Ok(word(words)?.parse::<i64>().ok())
}

// The bytes between two quotes.
pub(crate) fn text<'a>(words: &mut SplitWhitespace<'a>) -> Result<&'a [u8], Wrong> {
    match word(words)?.as_bytes() {
        [b'\'', text @ .., b'\''] => Ok(text),
        _ => Err(Wrong::Case),
    }
}

// The bytes that pairs of hex digits in lower case stand for, or `none`. The crate `hex` takes upper case too.
pub(crate) fn hex(heap: Global, words: &mut SplitWhitespace<'_>) -> Result<Vec<u8>, Wrong> {
    match word(words)? {
        "none" => Ok(Vec::new(heap)),
        digits if digits.bytes().any(|b| b.is_ascii_uppercase()) => Err(Wrong::Case),
        digits => Ok(hex::decode(heap, digits)?),
    }
}
