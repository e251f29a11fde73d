ghost use Rattle.std.specs.Prelude.{◌≡◌};
ghost use Rattle.cutter.specs.Words.{words_from, tokens, TokensFill, TokensFillFrom, TokensStand};
ghost use Rattle.cutter.specs.Ahead.{ahead, Took, Sees, Judged};

use crate::lengths::Class;
use crate::places::Place;
use crate::tokens::{Cursor, NoToken, Word};

impl<'a> Cursor<'a> {
    /// An inside to cut. Places count from its first byte.
    pub fn new(inside: &'a [u8]) -> Self
        ensures tokens { ahead result ≡ tokens inside.now }
        ensures fill { TokensFill }
    {
        Cursor::at(inside, 0)
    }

    /// The bytes of `src` from `place` on, to cut; nothing where it has fewer. Places count from the first byte of `src`.
    #[tactic(auto, using(crate::proofs::Filled::starts, crate::proofs::Fill::tokens_fill_from, crate::proofs::Standing::tokens_stand))]
    pub fn at(src: &'a [u8], place: usize) -> Self
        ensures tokens { ahead result ≡ words_from src.now place }
        ensures fill { TokensFillFrom }
        ensures stand { TokensStand }
    {
        Cursor {
            rest: Place {
                src,
                at: place.min(src.len()),
            },
        }
    }

    /// The next token; nothing behind the last.
    #[tactic(auto, using(crate::proofs::Filled::over_there, crate::proofs::Filled::ends, crate::proofs::Filled::no_token, crate::proofs::Filled::token))]
    pub fn next(&mut self) -> Result<Option<Word<'a>>, NoToken>
        ensures { Took (ahead self.old) result (ahead self.new) }
    {
        let start = self.rest.run(Class::Blank);
        if start.at == start.src.len() {
            self.rest = start;
            return Ok(None);
        }
        let end = start.token().ok_or(NoToken { place: start.at })?;
        self.rest = end;
        Ok(Some(Word {
            place: start.at,
            bytes: &start.src[start.at..end.at],
        }))
    }

    /// The next token, which stays the next.
    pub fn peek(&self) -> Result<Option<Word<'a>>, NoToken>
        ensures { Sees (ahead self.now) result }
    {
        let mut copy = *self;
        copy.next()
    }
}

/// Whether the whole inside cuts into tokens, and where not.
pub fn check(inside: &[u8]) -> Result<(), NoToken>
    ensures { Judged (tokens inside.now) result }
{
    check_from(inside, 0)
}

/// Whether all bytes of `src` from `place` on cut into tokens, and where not.
pub fn check_from(src: &[u8], place: usize) -> Result<(), NoToken>
    ensures { Judged (words_from src.now place) result }
{
    let mut cursor = Cursor::at(src, place);
    while cursor.next()?.is_some() {}
    Ok(())
}
