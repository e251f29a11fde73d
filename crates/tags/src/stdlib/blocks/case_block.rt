// The values of a `when`.
ghost use Rattle.std.specs.Prelude.{◌≡◌, IfOk, vec_items};
ghost use Rattle.arguments.specs.Judging.{token_if, seen};
ghost use Rattle.arguments.specs.Tables.{pool_of, under, Said, Grown, Longer, Is};
ghost use Rattle.tags.specs.Whens.{is_separator, separator, whens_of, whens};
ghost use Rattle.tags.specs.Reading.{Values, Whole, Added};

use arguments::reader::Reader;
use arguments::reader::entries::too_many;
use arguments::reader::words::{has_symbol, is_the_word};
use arguments::refusals::Stop;
use cutter::lengths::Symbol;
use cutter::tokens::Word;
use nodes::exprs::Span;

// How many values a `when` may have.
const VALUES: usize = 16;

// Whether a token is `or`, or a comma.
fn is_separator(word: Word) -> bool
    ensures { result ≡ is_separator (seen word.entry.place word.entry.bytes.now) }
{
    is_the_word(b"or", word) || has_symbol(Symbol::Comma, word)
}

// The place of the next token, which is taken, if it is `or` or a comma.
#[tactic(auto, unfolding(arguments::specs::Judging::token_if))]
fn take_separator(reader: &mut Reader<'_>) -> Result<Option<usize>, Stop>
    ensures says { Said result (token_if separator (under reader.old)) Is (under reader.new) }
    ensures grown { Grown reader.old reader.new }
{
    let mut behind = reader.cursor;
    match behind.next()? {
        Some(word) if is_separator(word) => {
            reader.cursor = behind;
            Ok(Some(word.place))
        }
        _ => Ok(None),
    }
}

// At most `left` values up to the end of the mark enter the table.
#[tactic(auto, using(arguments::proofs::Chaining::said_went, arguments::proofs::Chaining::refuses_went))]
fn enter_values(reader: &mut Reader<'_>, left: usize) -> Result<(), Stop>
    ensures says { Said result (whens_of left reader.old.mark (under reader.old)) (Added (vec_items reader.old.values) (pool_of reader.new)) (under reader.new) }
    ensures nodes { vec_items reader.new.nodes ≡ vec_items reader.old.nodes }
    ensures longer { Longer reader.old reader.new }
{
    if left == 0 {
        return Err(too_many(reader.word()?));
    }
    reader.enter_value()?;
    let Some(_) = take_separator(reader)? else {
        return reader.finish();
    };
    enter_values(reader, left - 1)
}

/// The values of a `when`, side by side in the table.
#[tactic(auto, using(arguments::proofs::Chaining::said_went, arguments::proofs::Chaining::refuses_went), unfolding(crate::specs::Whens::whens))]
pub fn parse_values(reader: &mut Reader<'_>) -> Result<Span, Stop>
    ensures says { Said result (whens reader.old.mark (under reader.old)) (Values (pool_of reader.new)) (under reader.new) }
    ensures nodes { vec_items reader.new.nodes ≡ vec_items reader.old.nodes }
    ensures whole { IfOk result (Whole reader.old reader.new) }
    ensures longer { Longer reader.old reader.new }
{
    let from = reader.values.len();
    enter_values(reader, VALUES)?;
    let count = reader.values.len() - from;
    Ok(Span { from, count })
}
