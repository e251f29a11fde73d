// What a token as written stands for.
ghost use Rattle.std.specs.Prelude.{◌≡◌, ◌+◌, ◌≤◌, length};
ghost use Rattle.numerals.specs.Decimal.{whole_of};
ghost use Rattle.std.specs.Str.{bytes_eq};
ghost use Rattle.cutter.specs.Lengths.{name_length};
ghost use Rattle.cutter.specs.Tokens.{inner, word_of, name_of, bound_from, bound_of, second, range_of, plain_of, token_of, reading, ReadsParts};

use crate::lengths::{Class, Symbol, symbol_of};
use crate::places::{Anchored, Place};
use crate::tokens::{Token, Word};
use numerals::read_whole;

// All but the first byte and the last.
pub(crate) fn inner(bytes: &[u8]) -> &[u8]
    ensures { result.now ≡ inner bytes.now }
{
    match bytes {
        [_, inner @ .., _] => inner,
        _ => b"",
    }
}

fn word_of(bytes: &[u8]) -> Token<'_>
    ensures { reading result ≡ word_of bytes.now }
{
    match bytes {
        b"nil" => Token::Nil,
        b"true" => Token::Boolean(true),
        b"false" => Token::Boolean(false),
        _ => Token::Name(bytes),
    }
}

fn name_of(bytes: &[u8]) -> Token<'_>
    ensures { reading result ≡ name_of bytes.now (name_length bytes.now 0) }
{
    let start = Place { src: bytes, at: 0 };
    let n = start.name().map_or(0, |end| end.at);
    let (name, steps) = bytes.split_at(n);
    if steps.is_empty() {
        word_of(bytes)
    } else {
        Token::Path(name, steps)
    }
}

// The value of the bound that begins there.
fn bound<'a>(start: Anchored<'a>) -> Word<'a>
    ensures place { result.place ≡ start.entry.base + bound_from start.entry.here.src.now start.entry.here.at }
    ensures bytes { result.bytes.now ≡ bound_of start.entry.here.src.now start.entry.here.at }
{
    let from = start.here.run(Class::Blank);
    let to = from.value().unwrap_or(from);
    Word {
        place: start.base + from.at,
        bytes: &from.src[from.at..to.at],
    }
}

fn range_of(word: Word<'_>) -> Token<'_>
    requires { 1 ≤ length word.bytes.now }
    ensures { reading result ≡ range_of word.entry.place word.entry.bytes.now }
{
    // `token` cannot fail: bytes that are no token, which no cursor gives, are nil, here and below.
    let Some(Anchored { base, .. }) = Anchored::new(word) else {
        return Token::Nil;
    };
    let bytes = word.bytes;
    let first = Place { src: bytes, at: 1 };
    let dots = first.bound().unwrap_or(first);
    let second = Place {
        src: bytes,
        at: bytes.len().min(dots.at + 2),
    };
    Token::Range(
        bound(Anchored { base, here: first }),
        bound(Anchored { base, here: second }),
    )
}

fn plain_of<'a>(number: Option<i64>, symbol: Option<Symbol>) -> Token<'a>
    ensures { reading result ≡ plain_of number symbol }
{
    match (number, symbol) {
        (Some(n), _) => Token::Number(n),
        (None, Some(s)) => Token::Symbol(s),
        (None, None) => Token::Nil,
    }
}

impl<'a> Word<'a> {
    /// What the token stands for; nil for bytes that are no token.
    #[tactic(auto, using(crate::proofs::Parts::reads_parts), unfolding(crate::specs::Tokens::token_of))]
    pub fn token(self) -> Token<'a>
        ensures reads { reading result ≡ token_of self.entry.place self.entry.bytes.now }
        ensures parts { ReadsParts }
    {
        let bytes = self.bytes;
        let start = Place { src: bytes, at: 0 };
        if start.stands(Class::Initial) {
            return name_of(bytes);
        }
        if start.stands(Class::Quote) {
            return Token::Text(inner(bytes));
        }
        if start.stands(Class::Is(b'(')) {
            return range_of(self);
        }
        plain_of(read_whole(bytes), symbol_of(bytes))
    }

    /// Whether these are the token's bytes as written: the `==` of slices, in the words of the definitions.
    pub fn is(self, word: &[u8]) -> bool
        ensures { result ≡ bytes_eq self.entry.bytes.now word.now }
    {
        self.bytes == word
    }
}
