// Chains of filters.
ghost use Rattle.std.specs.Prelude.{◌≡◌};
ghost use Rattle.arguments.specs.Judging.{seen};
ghost use Rattle.arguments.specs.Values.{read, bare, argument_behind, named_filter, filter, filters, chain};
ghost use Rattle.arguments.specs.Tables.{pool_of, under, Said, Grown, Lies, Perhaps};
ghost use Rattle.arguments.specs.Reading.{Exprs, Filters, Chains, Pushed};

use crate::reader::Reader;
use crate::reader::words::bare_of;
use crate::refusals::{Refusal, Stop};
use cutter::lengths::Symbol;
use cutter::tokens::Word;
use nodes::exprs::{Chain, Expr, Filter, Part, Span};

// How many filters a chain may have.
const FILTERS: usize = 4;

impl<'a> Reader<'a> {
    // The argument of a filter, if a colon stood before it.
    fn argument_behind(&mut self, colon: Option<usize>) -> Result<Option<Expr>, Stop>
        ensures says { Said result (argument_behind self.old.mark colon (under self.old)) (Perhaps (Exprs (pool_of self.new))) (under self.new) }
        ensures grown { Grown self.old self.new }
    {
        match colon {
            Some(_) => Ok(Some(self.value()?)),
            None => Ok(None),
        }
    }

    // A filter with the name that a token is enters the table.
    fn push_named(&mut self, word: Word<'a>) -> Result<(), Stop>
        requires lies { Lies self.old.source.now word.place word.bytes.now }
        ensures says { Said result (named_filter self.old.mark word.entry.place (bare (read (seen word.entry.place word.entry.bytes.now))) (under self.old)) (Pushed self.old self.new) (under self.new) }
        ensures grown { Grown self.old self.new }
    {
        let place = word.place;
        let name = bare_of(word).ok_or(Stop::Refused(Refusal::Argument, place))?;
        let len = name.len();
        let colon = self.take_symbol(Symbol::Colon)?;
        let argument = self.argument_behind(colon)?;
        self.filters.push(Filter {
            name: Part { place, len },
            argument,
        })?;
        Ok(())
    }

    // A filter enters the table.
    #[tactic(auto, using(crate::proofs::Chaining::said_went, crate::proofs::Chaining::refuses_went), unfolding(crate::specs::Values::filter))]
    fn push_filter(&mut self) -> Result<(), Stop>
        ensures says { Said result (filter self.old.mark (under self.old)) (Pushed self.old self.new) (under self.new) }
        ensures grown { Grown self.old self.new }
    {
        let word = self.word()?;
        self.push_named(word)
    }

    // The filters up to the end of the mark.
    fn push_filters(&mut self) -> Result<Span, Stop>
        ensures says { Said result (filters 4 self.old.mark (under self.old)) (Filters (pool_of self.new)) (under self.new) }
        ensures grown { Grown self.old self.new }
    {
        let from = self.filters.len();
        while let Some(place) = self.take_symbol(Symbol::Bar)? {
            if self.filters.len() - from == FILTERS {
                return Err(Stop::Refused(Refusal::Limit, place));
            }
            self.push_filter()?;
        }
        self.finish()?;
        let count = self.filters.len() - from;
        Ok(Span { from, count })
    }

    /// A value and its filters, up to the end of the mark.
    #[tactic(auto, using(crate::proofs::Chaining::said_went, crate::proofs::Chaining::refuses_went), unfolding(crate::specs::Values::chain))]
    pub fn chain(&mut self) -> Result<Chain, Stop>
        ensures says { Said result (chain self.old.mark (under self.old)) (Chains (pool_of self.new)) (under self.new) }
        ensures grown { Grown self.old self.new }
    {
        let value = self.value()?;
        let filters = self.push_filters()?;
        Ok(Chain { value, filters })
    }
}
