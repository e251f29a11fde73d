// The values and the name of a `cycle`.
ghost use Rattle.std.specs.Prelude.{◌≡◌, true, ◌∷◌, ◌++◌, List, ℕ, IfOk, length, vec_items};
ghost use Rattle.numerals.specs.Decimal.{whole_text};
ghost use Rattle.cutter.specs.Words.{Words, word as token};
ghost use Rattle.cutter.specs.Ahead.{ahead};
ghost use Rattle.arguments.specs.Judging.{seen, enter_cycle};
ghost use Rattle.arguments.specs.Standing.{standing};
ghost use Rattle.arguments.specs.Values.{read, value_as};
ghost use Rattle.arguments.specs.Tables.{given_name, pool_of, under, Said, Grown, Longer, Below};
ghost use Rattle.arguments.specs.Reading.{Valued};
ghost use Rattle.tags.specs.Cycles.{values_of, given, enter_given, named, unnamed, cycle_tag};
ghost use Rattle.tags.specs.Reading.{Leaves, WholeCycle, Names, Continued};

use arguments::reader::Reader;
use arguments::reader::entries::too_many;
use arguments::reader::words::has_symbol;
use arguments::refusals::{Refusal, Stop};
use arrayvec::ArrayVec;
use cutter::lengths::Symbol;
use cutter::tokens::{Cursor, Token, Word};
use nodes::exprs::Span;
use nodes::table::Leaf;
use numerals::write_whole;

// How many values a cycle may have.
const VALUES: usize = 16;

// A name that goes on; none where it is longer than a name may be.
fn extended(name: Option<ArrayVec<u8, 128>>, bytes: &[u8]) -> Option<ArrayVec<u8, 128>>
    ensures { (b : List ℕ) → Names name b → Names result (b ++ bytes.now) }
{
    let mut name = name?;
    if name.try_extend_from_slice(bytes).is_err() {
        return None;
    }
    Some(name)
}

// A name that goes on with a value as written.
fn continued(name: Option<ArrayVec<u8, 128>>, bytes: &[u8]) -> Option<ArrayVec<u8, 128>>
    ensures { (b : List ℕ) → Names name b → Names result (b ++ 44 ∷ 32 ∷ bytes.now) }
{
    extended(extended(name, b", "), bytes)
}

// At most `left` values up to the end of the mark enter the table, and the name goes on with them.
#[tactic(auto, using(arguments::proofs::Chaining::said_went, arguments::proofs::Chaining::refuses_went))]
fn enter_values(
    reader: &mut Reader<'_>,
    left: usize,
    name: Option<ArrayVec<u8, 128>>,
) -> Result<Option<ArrayVec<u8, 128>>, Stop>
    ensures says { Said result (values_of left (under reader.old)) (Continued (vec_items reader.old.values) (pool_of reader.new) name) (under reader.new) }
    ensures nodes { vec_items reader.new.nodes ≡ vec_items reader.old.nodes }
    ensures longer { Longer reader.old reader.new }
{
    let Some(word) = reader.cursor.peek()? else {
        return Ok(name);
    };
    if left == 0 {
        return Err(too_many(word));
    }
    reader.enter_value()?;
    let name = continued(name, word.bytes);
    let Some(_) = reader.take_symbol(Symbol::Comma)? else {
        reader.finish()?;
        return Ok(name);
    };
    enter_values(reader, left - 1, name)
}

// The number of the name that the text of a number gives.
fn enter_number(reader: &mut Reader<'_>, place: usize, n: i64) -> Result<usize, Stop>
    ensures says { Said result (enter_cycle place (given_name (whole_text n)) (under reader.old)) (Below (length reader.new.cycles.items)) (under reader.new) }
    ensures grown { Grown reader.old reader.new }
{
    let mut text = [0; 20];
    // A number has at most twenty bytes.
    let len = write_whole(n, &mut text).unwrap_or(0);
    reader.enter_given(place, &text[..len])
}

// The number of the name that a token gives.
fn enter_name(reader: &mut Reader<'_>, word: Word<'_>) -> Result<usize, Stop>
    ensures says { Said result (enter_given word.entry.place (given (read (seen word.entry.place word.entry.bytes.now))) (under reader.old)) (Below (length reader.new.cycles.items)) (under reader.new) }
    ensures grown { Grown reader.old reader.new }
{
    let place = word.place;
    match word.token() {
        Token::Nil => reader.enter_given(place, b""),
        Token::Boolean(true) => reader.enter_given(place, b"true"),
        Token::Boolean(false) => reader.enter_given(place, b"false"),
        Token::Number(n) => enter_number(reader, place, n),
        Token::Text(bytes) | Token::Name(bytes) => reader.enter_given(place, bytes),
        Token::Path(_, _) | Token::Range(_, _) | Token::Symbol(_) => Err(Stop::Refused(
            Refusal::Argument,
            place,
        )),
    }
}

// The arguments of a cycle with a name, which is the token `word`.
#[tactic(auto, using(arguments::proofs::Chaining::said_went, arguments::proofs::Chaining::refuses_went), unfolding(crate::specs::Cycles::named))]
fn named(reader: &mut Reader<'_>, word: Word<'_>) -> Result<Leaf, Stop>
    ensures says { Said result (named (seen word.entry.place word.entry.bytes.now) (under reader.old)) (Leaves (pool_of reader.new)) (under reader.new) }
    ensures nodes { vec_items reader.new.nodes ≡ vec_items reader.old.nodes }
    ensures whole { IfOk result (WholeCycle reader.old reader.new) }
    ensures longer { Longer reader.old reader.new }
{
    let cycle = enter_name(reader, word)?;
    let from = reader.values.len();
    enter_values(reader, VALUES, None)?;
    let count = reader.values.len() - from;
    Ok(Leaf::Cycle(cycle, Span { from, count }))
}

// The value of the token at `start` enters the table; what is ahead stays ahead.
fn enter_first<'a>(reader: &mut Reader<'a>, start: Cursor<'a>) -> Result<(), Stop>
    requires { standing reader.old.source.now (ahead start) ≡ true }
    ensures says { (p : ℕ) (b : List ℕ) (rest : Words) → ahead start.entry ≡ token p b rest → Said result (value_as p p (read (seen p b)) (under reader.old)) (Valued reader.old reader.new) (under reader.new) }
    ensures nodes { vec_items reader.new.nodes ≡ vec_items reader.old.nodes }
    ensures longer { Longer reader.old reader.new }
{
    let behind = reader.cursor;
    reader.cursor = start;
    reader.enter_value()?;
    reader.cursor = behind;
    Ok(())
}

// The arguments of a cycle without a name: `word`, the token at `start`, is the first of its values.
#[tactic(auto, using(arguments::proofs::Chaining::said_went, arguments::proofs::Chaining::refuses_went), unfolding(crate::specs::Cycles::unnamed))]
fn unnamed<'a>(reader: &mut Reader<'a>, start: Cursor<'a>, word: Word<'a>) -> Result<Leaf, Stop>
    requires stands { standing reader.old.source.now (ahead start) ≡ true }
    requires first { (rest : Words) × ahead start ≡ token word.place word.bytes.now rest }
    ensures says { Said result (unnamed (seen word.entry.place word.entry.bytes.now) (under reader.old)) (Leaves (pool_of reader.new)) (under reader.new) }
    ensures nodes { vec_items reader.new.nodes ≡ vec_items reader.old.nodes }
    ensures whole { IfOk result (WholeCycle reader.old reader.new) }
    ensures longer { Longer reader.old reader.new }
{
    let place = word.place;
    let from = reader.values.len();
    enter_first(reader, start)?;
    let name = extended(Some(ArrayVec::new()), word.bytes);
    let Some(name) = enter_values(reader, VALUES - 1, name)? else {
        return Err(Stop::Refused(Refusal::Limit, place));
    };
    let cycle = reader.enter_made(place, name.as_slice())?;
    let count = reader.values.len() - from;
    Ok(Leaf::Cycle(cycle, Span { from, count }))
}

/// The arguments of a `cycle`.
#[tactic(auto, using(arguments::proofs::Chaining::said_went, arguments::proofs::Chaining::refuses_went), unfolding(crate::specs::Cycles::cycle_tag))]
pub fn parse(reader: &mut Reader<'_>) -> Result<Leaf, Stop>
    ensures says { Said result (cycle_tag reader.old.mark (under reader.old)) (Leaves (pool_of reader.new)) (under reader.new) }
    ensures nodes { vec_items reader.new.nodes ≡ vec_items reader.old.nodes }
    ensures whole { IfOk result (WholeCycle reader.old reader.new) }
    ensures longer { Longer reader.old reader.new }
{
    let start = reader.cursor;
    let first = reader.word()?;
    let Some(second) = reader.next_word()? else {
        return unnamed(reader, start, first);
    };
    if has_symbol(Symbol::Colon, second) {
        return named(reader, first);
    }
    if has_symbol(Symbol::Comma, second) {
        return unnamed(reader, start, first);
    }
    Err(Stop::Refused(Refusal::Argument, second.place))
}
