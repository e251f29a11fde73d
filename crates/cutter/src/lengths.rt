// Places in some bytes, and what begins there: names, numbers, texts, paths, ranges, symbols and tokens.
ghost use Rattle.std.specs.Prelude.{◌≡◌, slice_index};
ghost use Rattle.cutter.specs.Lengths.{has, stands, run_at, name_length, number_length, signed_length, text_length, key_length, step_length, steps_length, is_literal, path_length, value_length, bound_length, range_length, width, symbol_of, symbol_length, token_length};
ghost use Rattle.cutter.specs.Places.{Past, Behind, one};
ghost use Rattle.cutter.specs.declared.lengths.Class.TheVariants.{Is};

use crate::places::Place;
use numerals::read_whole;

// The classes of bytes: blanks, digits, what a name begins with, what it goes on with, quotes, one byte, and all but one.
// An enum and no closure, since the definitions speak of the classes by name.
#[derive(Clone, Copy, Debug, PartialEq, Eq)]
pub enum Class {
    Blank,
    Digit,
    Initial,
    Named,
    Quote,
    Is(u8),
    Not(u8),
}

impl Class {
    fn has(self, b: u8) -> bool
        ensures { result ≡ has self b }
    {
        match (self, b) {
            (Class::Blank, b' ' | b'\t' | b'\r' | b'\n') => true,
            (Class::Digit, b'0'..=b'9') => true,
            (Class::Initial, b'a'..=b'z' | b'A'..=b'Z' | b'_') => true,
            (Class::Named, b'a'..=b'z' | b'A'..=b'Z' | b'_' | b'0'..=b'9' | b'-') => true,
            (Class::Quote, b'\'' | b'"') => true,
            (Class::Is(c), _) => b == c,
            (Class::Not(c), _) => b != c,
            _ => false,
        }
    }
}

/// `==`; `!=` and `<>`; `<=`; `>=`; `<`; `>`; `:`; `,`; `=`; `|`.
#[derive(Clone, Copy, Debug, PartialEq, Eq)]
pub enum Symbol {
    Same,
    Differs,
    AtMost,
    AtLeast,
    Less,
    Greater,
    Colon,
    Comma,
    Assign,
    Bar,
}

impl Symbol {
    fn width(self) -> usize
        ensures { result ≡ width self }
    {
        match self {
            Symbol::Same | Symbol::Differs | Symbol::AtMost | Symbol::AtLeast => 2,
            _ => 1,
        }
    }
}

// Each method but `stands` answers the place behind what it is named after, and `None` where that does not begin here.
impl<'a> Place<'a> {
    // Whether a byte of the class stands here.
    pub(crate) fn stands(self, class: Class) -> bool
        ensures { result ≡ stands class self.entry.src.now self.entry.at }
    {
        self.src.get(self.at).is_some_and(|b| class.has(*b))
    }

    // A byte of the class.
    fn one(self, class: Class) -> Option<Self>
        ensures { Behind (one class) self.entry result }
    {
        // `then` was tried: the fact of the place that its closure makes did not close.
        if self.stands(class) {
            Some(Place {
                src: self.src,
                at: self.at + 1,
            })
        } else {
            None
        }
    }

    // This byte.
    fn skip(self, byte: u8) -> Option<Self>
        ensures { Behind (one (Is byte)) self.entry result }
    {
        self.one(Class::Is(byte))
    }

    // All the bytes of the class, which may be none.
    pub(crate) fn run(self, class: Class) -> Self
        ensures { Past (run_at class) self.entry result }
    {
        let rest = &self.src[self.at..];
        let n = rest.iter().take_while(|b| class.has(**b)).count();
        Place {
            src: self.src,
            at: self.at + n,
        }
    }

    #[tactic(auto, unfolding(crate::specs::Lengths::name_length))]
    pub(crate) fn name(self) -> Option<Self>
        ensures { Behind name_length self.entry result }
    {
        Some(self.one(Class::Initial)?.run(Class::Named))
    }

    // An optional sign and the digits.
    #[tactic(auto, unfolding(crate::specs::Lengths::signed_length))]
    fn signed(self) -> Self
        ensures { Past signed_length self.entry result }
    {
        self.skip(b'-').unwrap_or(self).run(Class::Digit)
    }

    #[tactic(auto, using(crate::proofs::Runs::number_some, crate::proofs::Runs::number_none))]
    fn number(self) -> Option<Self>
        ensures { Behind number_length self.entry result }
    {
        let end = self.signed();
        read_whole(&self.src[self.at..end.at])?;
        Some(end)
    }

    // Up to the quote that opened it.
    #[tactic(auto, using(crate::proofs::Runs::text_end), unfolding(crate::specs::Lengths::text_length))]
    fn text(self) -> Option<Self>
        ensures { Behind text_length self.entry result }
    {
        let quote = *self.src.get(self.at)?;
        self.one(Class::Quote)?.run(Class::Not(quote)).skip(quote)
    }

    // A `match` here, in `value` and in `token`: `or_else` was tried, and the proof, which knows nothing of what its closure answers, did not close.
    #[tactic(auto, unfolding(crate::specs::Lengths::key_length))]
    fn key(self) -> Option<Self>
        ensures { Behind key_length self.entry result }
    {
        match self.number() {
            None => self.text(),
            end => end,
        }
    }

    #[inline(always)]
    #[tactic(auto, unfolding(crate::specs::Lengths::step_length))]
    pub(crate) fn step(self) -> Option<Self>
        ensures { Behind step_length self.entry result }
    {
        match self.skip(b'.') {
            Some(name) => name.name(),
            None => self.skip(b'[')?.key()?.skip(b']'),
        }
    }

    // All the steps.
    #[tactic(auto, using(crate::proofs::Runs::steps_more, crate::proofs::Runs::steps_none))]
    fn steps(self) -> Self
        ensures { Past steps_length self.entry result }
    {
        let mut end = self;
        while let Some(next) = end.step() {
            end = next;
        }
        end
    }

    // A path, or a word that is a literal.
    #[tactic(auto, unfolding(crate::specs::Lengths::path_length))]
    fn path(self) -> Option<Self>
        ensures { Behind path_length self.entry result }
    {
        let end = self.name()?;
        let word = &self.src[self.at..end.at];
        Some(if is_literal(word) { end } else { end.steps() })
    }

    #[tactic(auto, unfolding(crate::specs::Lengths::value_length))]
    pub(crate) fn value(self) -> Option<Self>
        ensures { Behind value_length self.entry result }
    {
        match self.path() {
            None => self.key(),
            end => end,
        }
    }

    // A value with the blanks around it.
    #[tactic(auto, unfolding(crate::specs::Lengths::bound_length))]
    pub(crate) fn bound(self) -> Option<Self>
        ensures { Behind bound_length self.entry result }
    {
        Some(self.run(Class::Blank).value()?.run(Class::Blank))
    }

    #[tactic(auto, unfolding(crate::specs::Lengths::range_length, crate::specs::Lengths::dots_length))]
    fn range(self) -> Option<Self>
        ensures { Behind range_length self.entry result }
    {
        self.skip(b'(')?
            .bound()?
            .skip(b'.')?
            .skip(b'.')?
            .bound()?
            .skip(b')')
    }

    #[inline(always)]
    #[tactic(auto, unfolding(crate::specs::Lengths::symbol_length))]
    fn symbol(self) -> Option<Self>
        ensures { Behind symbol_length self.entry result }
    {
        let symbol = symbol_of(&self.src[self.at..])?;
        Some(Place {
            src: self.src,
            at: self.at + symbol.width(),
        })
    }

    #[tactic(auto, unfolding(crate::specs::Lengths::token_length))]
    pub(crate) fn token(self) -> Option<Self>
        ensures { Behind token_length self.entry result }
    {
        match self.value() {
            None => match self.range() {
                None => self.symbol(),
                end => end,
            },
            end => end,
        }
    }
}

#[tactic(auto, unfolding(crate::specs::Lengths::is_literal))]
fn is_literal(word: &[u8]) -> bool
    ensures { result ≡ is_literal word.now }
{
    matches!(word, b"nil" | b"true" | b"false")
}

// The symbol that the bytes begin with.
#[inline(always)]
pub(crate) fn symbol_of(bytes: &[u8]) -> Option<Symbol>
    ensures { result ≡ symbol_of (slice_index bytes.now 0) (slice_index bytes.now 1) }
{
    match bytes {
        [b'=', b'=', ..] => Some(Symbol::Same),
        [b'!', b'=', ..] => Some(Symbol::Differs),
        [b'<', b'>', ..] => Some(Symbol::Differs),
        [b'<', b'=', ..] => Some(Symbol::AtMost),
        [b'>', b'=', ..] => Some(Symbol::AtLeast),
        [b'=', ..] => Some(Symbol::Assign),
        [b'<', ..] => Some(Symbol::Less),
        [b'>', ..] => Some(Symbol::Greater),
        [b':', ..] => Some(Symbol::Colon),
        [b',', ..] => Some(Symbol::Comma),
        [b'|', ..] => Some(Symbol::Bar),
        _ => None,
    }
}
