// The tokens of the mark, one by one.
ghost use Rattle.std.specs.Prelude.{◌≡◌, IfSome};
ghost use Rattle.std.specs.Option.{option_copied};
ghost use Rattle.arguments.specs.Judging.{State, token, token_if, expect, right_or, finished, seen};
ghost use Rattle.arguments.specs.Values.{read, bare, is_the_word, symbol_in, is_the_symbol, symbol_at};
ghost use Rattle.arguments.specs.Tables.{under, Said, Grown, Shown, Perhaps, Is};

use crate::reader::Reader;
use crate::refusals::{Refusal, Stop};
use cutter::lengths::Symbol;
use cutter::tokens::{Token, Word};
use tray::parts::same_text;

/// The symbol that a token is.
pub fn symbol_of(word: Word) -> Option<Symbol>
    ensures { result ≡ symbol_in (read (seen word.entry.place word.entry.bytes.now)) }
{
    match word.token() {
        Token::Symbol(s) => Some(s),
        _ => None,
    }
}

/// Whether a token is this symbol.
pub fn has_symbol(symbol: Symbol, word: Word) -> bool
    ensures { result ≡ is_the_symbol symbol (seen word.entry.place word.entry.bytes.now) }
{
    symbol_of(word) == Some(symbol)
}

/// The bare name that a token is, which is the whole of it.
pub fn bare_of<'a>(word: Word<'a>) -> Option<&'a [u8]>
    ensures is { option_copied result ≡ bare (read (seen word.entry.place word.entry.bytes.now)) }
    ensures whole { IfSome result (λ n. n.now ≡ word.entry.bytes.now) }
{
    match word.token() {
        Token::Name(n) => Some(n),
        _ => None,
    }
}

/// Whether a token is this bare name.
pub fn is_the_word(name: &[u8], word: Word) -> bool
    ensures { result ≡ is_the_word name.now (seen word.entry.place word.entry.bytes.now) }
{
    bare_of(word).is_some_and(|n| same_text(n, name))
}

// A token at `place` that is right, or refused.
fn right_or(right: bool, place: usize) -> Result<(), Stop>
    ensures { (s : State) → Said result (right_or right place s) Is s }
{
    if right {
        Ok(())
    } else {
        Err(Stop::Refused(Refusal::Argument, place))
    }
}

impl<'a> Reader<'a> {
    /// The next token; where there is none, an argument of the mark is missing.
    #[tactic(auto, using(crate::proofs::Tokens::lies_ahead), unfolding(crate::specs::Judging::token))]
    pub fn word(&mut self) -> Result<Word<'a>, Stop>
        ensures says { Said result (token self.old.mark (under self.old)) (Shown self.old.source.now) (under self.new) }
        ensures grown { Grown self.old self.new }
    {
        self.cursor
            .next()?
            .ok_or(Stop::Refused(Refusal::Argument, self.mark))
    }

    /// The next token, if there is one.
    #[tactic(auto, using(crate::proofs::Tokens::lies_ahead), unfolding(crate::specs::Judging::token_if))]
    pub fn next_word(&mut self) -> Result<Option<Word<'a>>, Stop>
        ensures says { Said result (token_if Some (under self.old)) (Perhaps (Shown self.old.source.now)) (under self.new) }
        ensures grown { Grown self.old self.new }
    {
        Ok(self.cursor.next()?)
    }

    /// Nothing is left over.
    #[tactic(auto, unfolding(crate::specs::Judging::finished))]
    pub fn finish(&mut self) -> Result<(), Stop>
        ensures says { Said result (finished (under self.old)) Is (under self.new) }
        ensures grown { Grown self.old self.new }
    {
        match self.cursor.next()? {
            Some(word) => Err(Stop::Refused(Refusal::Argument, word.place)),
            None => Ok(()),
        }
    }

    /// The place of the next token, which is taken, if it is this symbol.
    #[tactic(auto, unfolding(crate::specs::Judging::token_if))]
    pub fn take_symbol(&mut self, symbol: Symbol) -> Result<Option<usize>, Stop>
        ensures says { Said result (token_if (symbol_at symbol) (under self.old)) Is (under self.new) }
        ensures grown { Grown self.old self.new }
    {
        let mut behind = self.cursor;
        match behind.next()? {
            Some(word) if has_symbol(symbol, word) => {
                self.cursor = behind;
                Ok(Some(word.place))
            }
            _ => Ok(None),
        }
    }

    /// The next token is this symbol.
    #[tactic(auto, using(crate::proofs::Chaining::said_went, crate::proofs::Chaining::refuses_went), unfolding(crate::specs::Judging::expect))]
    pub fn expect_symbol(&mut self, symbol: Symbol) -> Result<(), Stop>
        ensures says { Said result (expect (is_the_symbol symbol) self.old.mark (under self.old)) Is (under self.new) }
        ensures grown { Grown self.old self.new }
    {
        let word = self.word()?;
        right_or(has_symbol(symbol, word), word.place)
    }

    /// The next token is this bare name.
    #[tactic(auto, using(crate::proofs::Chaining::said_went, crate::proofs::Chaining::refuses_went), unfolding(crate::specs::Judging::expect))]
    pub fn expect_word(&mut self, name: &[u8]) -> Result<(), Stop>
        ensures says { Said result (expect (is_the_word name.now) self.old.mark (under self.old)) Is (under self.new) }
        ensures grown { Grown self.old self.new }
    {
        let word = self.word()?;
        right_or(is_the_word(name, word), word.place)
    }
}
