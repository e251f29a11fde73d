//! Why a job stops.

use std::alloc::AllocError;
use thiserror::Error;

// Why a line is no action.
#[derive(Clone, Copy, Debug, Error)]
pub(crate) enum Fault {
    #[error("no such action")]
    UnknownWord,
    #[error("a filter name is wanted here")]
    NoFilter,
    #[error("a template name is wanted here")]
    NoTemplate,
    #[error("a name is wanted here")]
    NoName,
    #[error("null, a boolean, a whole number or a text is wanted here")]
    NoDatum,
    #[error("a whole number from 0 on is wanted here")]
    NoCount,
    #[error("a text in quotes or @ and a file name is wanted here")]
    NoTemplateText,
    #[error("a file name is wanted here")]
    NoFileName,
    #[error("a file name is not UTF-8")]
    FileName,
    #[error("this file cannot be read")]
    Unreadable,
    #[error("something is left over")]
    LeftOver,
    #[error("the JSON ends too soon")]
    Ended,
    #[error("this is not JSON")]
    NotJson,
    #[error("a value is wanted here")]
    NoValue,
    #[error("a key in quotes is wanted here")]
    NoKey,
    #[error("a colon is wanted here")]
    NoColon,
    #[error("a comma or a closing bracket is wanted here")]
    NoComma,
    #[error("the host data is not an object")]
    NotObject,
    #[error("a digit is wanted here")]
    NoDigit,
    #[error("a number begins with a 0 too many")]
    LeadingZero,
    #[error("a number has a fraction or an exponent")]
    Fraction,
    #[error("a number does not fit 64 signed bits")]
    Large,
    #[error("a text is not closed")]
    OpenText,
    #[error("a control byte stands in a text")]
    Control,
    #[error("no such escape")]
    Escape,
    #[error("a hexadecimal digit is wanted here")]
    Hex,
    #[error("a surrogate stands alone")]
    Surrogate,
}

// A fault, with its line and the place in it, both from 1; or want of memory.
#[derive(Clone, Copy, Debug, Error)]
pub(crate) enum JobError {
    #[error("no memory")]
    Memory(#[from(alloc)] AllocError),
    #[error("line {line}, column {column}: {fault}")]
    Bad {
        line: usize,
        column: usize,
        fault: Fault,
    },
}

// A place in a job: its line and the bytes before it in the line, both counted from 0.
#[derive(Clone, Copy)]
pub(crate) struct Place {
    pub(crate) line: usize,
    pub(crate) before: usize,
}

impl Place {
    pub(crate) fn bad(self, fault: Fault) -> JobError {
        JobError::Bad {
            line: self.line.saturating_add(1),
            column: self.before.saturating_add(1),
            fault,
        }
    }
}
