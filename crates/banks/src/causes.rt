ghost use Rattle.std.specs.Prelude.{◌≡◌, Some};
ghost use Rattle.banks.specs.Causes.{number_of, words_of};

use std::error::Error;
use std::fmt;

/// Why a bank gives no value.
#[derive(Clone, Copy, PartialEq, Eq, Debug)]
pub enum Cause {
    /// The bank does not know the name.
    UnknownName = 1,
    /// The input or the argument is of a wrong kind, or one is missing or too many.
    WrongOperand = 2,
    /// The result is beyond 64 signed bits.
    Overflow = 3,
    /// There is no such phrase.
    NoPhrase = 4,
}

impl Cause {
    /// The number of the cause.
    pub fn number(self) -> u8
        ensures { result ≡ number_of self }
    {
        self as u8
    }
}

// By hand and no derive, since a clause says what it writes.
impl fmt::Display for Cause {
    ghost output = { λ c. Some (words_of c) };

    fn fmt<W: fmt::Write>(&self, f: &mut fmt::Formatter<W>) -> fmt::Result {
        f.write_str(match self {
            Cause::UnknownName => "no bank knows the name",
            Cause::WrongOperand => "an operand is wrong or missing",
            Cause::Overflow => "the result is beyond 64 signed bits",
            Cause::NoPhrase => "there is no such phrase",
        })
    }
}

impl Error for Cause {}
