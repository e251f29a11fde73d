ghost use Rattle.std.specs.Prelude.{◌≤◌, length};

// How many bytes a text may have.
const LONGEST: usize = 256;

/// A text of at most 256 bytes.
#[derive(Clone, Copy, Debug, PartialEq, Eq)]
pub struct Short<'a> {
    bytes: &'a [u8],
    ghost short: { length bytes.now ≤ 256 },
}

/// What a filter is applied to, or its argument.
#[derive(Clone, Copy, Debug, PartialEq, Eq)]
pub enum Operand<'a> {
    Nil,
    Boolean(bool),
    Whole(i64),
    Text(Short<'a>),
}

impl<'a> Short<'a> {
    ghost use Rattle.std.specs.Prelude.{◌≡◌, ◌<◌, ◌≤◌, length, MatchOption};
    ghost use Rattle.banks.specs.Operands.{text_of};

    /// The text, unless it has more than 256 bytes.
    pub fn new(bytes: &'a [u8]) -> Option<Short<'a>>
        ensures { MatchOption result (256 < length bytes.now) (λ s. text_of s ≡ bytes.now) }
    {
        // `then` was tried: the bound of the text that its closure makes did not close.
        if bytes.len() <= LONGEST {
            Some(Short { bytes })
        } else {
            None
        }
    }

    /// The bytes of the text.
    pub fn bytes(self) -> &'a [u8]
        ensures value { result.now ≡ text_of self.entry }
        ensures short { length result.now ≤ 256 }
    {
        self.bytes
    }
}
