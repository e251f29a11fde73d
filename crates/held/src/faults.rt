// Faults: what ends a ticket before its end.
ghost use Rattle.std.specs.Prelude.{◌≡◌, Some};
ghost use Rattle.std.specs.Option.{option_map};
ghost use Rattle.banks.specs.Causes as causes;
ghost use Rattle.held.specs.Faults.{number_of, cause_of, words_of};

use banks::causes::Cause;
use std::error::Error;
use std::fmt;

/// Why a ticket ends before its end.
#[derive(Clone, Copy, Debug, PartialEq, Eq)]
pub enum Fault {
    /// A name or a step of a path is not there.
    Absent,
    /// A whole number is asked for.
    NoNumber,
    /// A loop cannot go over the value.
    NoRow,
    /// A table with items has `cols` 0.
    NoColumn,
    /// The position of a `cycle` is not below the count of its values.
    PastValues,
    /// A `cycle` has no values.
    NoValues,
    /// A range has more than 4,096 numbers.
    LongRange,
    /// A counter would leave 64 bits.
    FullCounter,
    /// Something is sought in nil by `contains`.
    InNil,
    /// A loop object is used as a value.
    LoopObject,
    /// A text is too long to be kept, or to be sought.
    TooLong,
    /// A filter gives no value.
    Filter(Cause),
    /// A piece of text is longer than the space left in the buffer.
    NoRoom,
}

impl Fault {
    /// The number of the fault.
    pub fn number(self) -> u8
        ensures { result ≡ number_of self }
    {
        match self {
            Fault::Absent => 21,
            Fault::NoNumber => 22,
            Fault::NoRow => 23,
            Fault::NoColumn => 24,
            Fault::PastValues => 25,
            Fault::NoValues => 26,
            Fault::LongRange => 27,
            Fault::FullCounter => 28,
            Fault::InNil => 29,
            Fault::LoopObject => 30,
            Fault::TooLong => 31,
            Fault::Filter(_) => 32,
            Fault::NoRoom => 33,
        }
    }

    /// Why a filter gave no value, where it was a filter's.
    pub fn cause(self) -> Option<Cause>
        ensures { option_map causes.number_of result ≡ cause_of self }
    {
        match self {
            Fault::Filter(cause) => Some(cause),
            _ => None,
        }
    }
}

// By hand and no derive, since a clause says what it writes.
impl fmt::Display for Fault {
    ghost output = { λ f. Some (words_of f) };

    fn fmt<W: fmt::Write>(&self, f: &mut fmt::Formatter<W>) -> fmt::Result {
        f.write_str(match self {
            Fault::Absent => "a name or a step is not there",
            Fault::NoNumber => "no whole number",
            Fault::NoRow => "nothing that a loop can go over",
            Fault::NoColumn => "a table with items has no column",
            Fault::PastValues => "the cycle has fewer values than its position",
            Fault::NoValues => "the cycle has no values",
            Fault::LongRange => "a range of more than 4,096 numbers",
            Fault::FullCounter => "the counter would leave 64 bits",
            Fault::InNil => "nothing can be in nil",
            Fault::LoopObject => "a loop object is no value",
            Fault::TooLong => "a text is too long to be kept or sought",
            Fault::Filter(_) => "a filter gives no value",
            Fault::NoRoom => "the buffer has no room for a piece of text",
        })
    }
}

impl Error for Fault {}
