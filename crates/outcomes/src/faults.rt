//! Why a table cannot be run.

use std::alloc::AllocError;
use thiserror::Error;

#[derive(Clone, Copy, Debug, Error)]
pub(crate) enum Fault {
    #[error("no memory")]
    Memory(#[from(alloc)] AllocError),
    #[error("the file of a table is wanted")]
    NoTable,
    // The number of the line, from 1.
    #[error("line {0} cannot be read")]
    Line(usize),
}
