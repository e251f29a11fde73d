// Why a template is not loaded.
ghost use Rattle.std.specs.Prelude.{◌≡◌};
ghost use Rattle.arguments.specs.Refusals.{number_of, words_of};
ghost use Rattle.arguments.specs.declared.refusals.Refusal.TheVariants as refusal;
ghost use Rattle.arguments.specs.declared.refusals.Stop.TheVariants.{Refused, Memory};

use cutter::pieces::Unclosed;
use cutter::tokens::NoToken;
use std::alloc::AllocFailed;

/// The refusals of `load`, by their numbers.
#[derive(Clone, Copy, Debug, PartialEq, Eq)]
pub enum Refusal {
    OutsideSource = 1,
    Limit = 2,
    Unclosed = 3,
    NoToken = 4,
    UnknownTag = 5,
    Argument = 6,
    OpenBlock = 7,
    Reserved = 8,
    UnknownFilter = 9,
}

impl Refusal {
    pub fn number(self) -> u8
        ensures { result ≡ number_of self }
    {
        self as u8
    }

    /// What the number means.
    pub fn words(self) -> &'static str
        ensures { result.now ≡ words_of self }
    {
        match self {
            Refusal::OutsideSource => "the part does not lie inside the source text",
            Refusal::Limit => "a limit of the sheet is passed",
            Refusal::Unclosed => "a mark is not closed",
            Refusal::NoToken => "inside a mark stands something that is no token",
            Refusal::UnknownTag => "a tag that is unknown here",
            Refusal::Argument => "argument wrong, missing or left over",
            Refusal::OpenBlock => "a block is not closed",
            Refusal::Reserved => "a reserved word stands where a name is wanted",
            Refusal::UnknownFilter => "a filter name that the bank does not know",
        }
    }
}

/// A refusal with the place where it was found, or want of memory.
#[derive(Clone, Copy, Debug, PartialEq, Eq)]
pub enum Stop {
    Refused(Refusal, usize),
    Memory,
}

impl From<NoToken> for Stop {
    ghost from_gives = { λ e s. s ≡ Refused refusal.NoToken e.place };

    fn from(e: NoToken) -> Stop {
        Stop::Refused(Refusal::NoToken, e.place)
    }
}

impl From<Unclosed> for Stop {
    ghost from_gives = { λ e s. s ≡ Refused refusal.Unclosed e.place };

    fn from(e: Unclosed) -> Stop {
        Stop::Refused(Refusal::Unclosed, e.place)
    }
}

impl<T: Drop> From<AllocFailed<T>> for Stop {
    ghost from_gives = { λ _ s. s ≡ Memory };

    fn from(_e: AllocFailed<T>) -> Stop {
        Stop::Memory
    }
}
