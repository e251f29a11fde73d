// The conditions of `if`, `unless` and `elsif`.
ghost use Rattle.std.specs.Prelude.{◌≡◌, [], ◌∷◌, ◌++◌, OnOk, length, vec_items};
ghost use Rattle.std.specs.Option.{option_map};
ghost use Rattle.nodes.specs.Exprs.{comparison_of};
ghost use Rattle.arguments.specs.Judging.{token_if, seen};
ghost use Rattle.arguments.specs.Tables.{pool_of, under, Said, Grown, Longer, Is};
ghost use Rattle.arguments.specs.Reading.{Exprs};
ghost use Rattle.tags.specs.Conditions.{comparison_by, comparison, first, tested, a_test, joint, place_of, joining, condition_of, condition};
ghost use Rattle.tags.specs.Reading.{Comparisons, Roomy, Tests, Last, Stands, node_of};

use arguments::reader::Reader;
use arguments::reader::entries::{is_value, too_many};
use arguments::reader::words::is_the_word;
use arguments::refusals::Stop;
use cutter::lengths::Symbol;
use cutter::tokens::{Token, Word};
use nodes::exprs::{Comparison, Expr};
use nodes::table::Node;
use tray::parts::same_text;

// How many tests a condition may have.
const TESTS: usize = 16;

/// `and` or `or`, with its place.
#[derive(Clone, Copy, Debug, PartialEq, Eq)]
pub enum Joint {
    And(usize),
    Or(usize),
}

impl Joint {
    fn place(self) -> usize
        ensures { result ≡ place_of self }
    {
        match self {
            Joint::And(place) | Joint::Or(place) => place,
        }
    }

    fn node(self) -> Node
        ensures { result ≡ node_of self }
    {
        match self {
            Joint::And(_) => Node::And,
            Joint::Or(_) => Node::Or,
        }
    }
}

fn comparison_by(symbol: Symbol) -> Option<Comparison>
    ensures { option_map comparison_of result ≡ comparison_by symbol }
{
    match symbol {
        Symbol::Same => Some(Comparison::Equals),
        Symbol::Differs => Some(Comparison::Differs),
        Symbol::AtMost => Some(Comparison::AtMost),
        Symbol::AtLeast => Some(Comparison::AtLeast),
        Symbol::Less => Some(Comparison::Less),
        Symbol::Greater => Some(Comparison::More),
        Symbol::Colon | Symbol::Comma | Symbol::Assign | Symbol::Bar => None,
    }
}

// The comparison that a token is.
fn comparison_of(word: Word) -> Option<Comparison>
    ensures { option_map comparison_of result ≡ comparison (seen word.entry.place word.entry.bytes.now) }
{
    match word.token() {
        Token::Name(n) if same_text(n, b"contains") => Some(Comparison::Contains),
        Token::Symbol(s) => comparison_by(s),
        _ => None,
    }
}

// The next token, which is taken, if it is a comparison.
#[tactic(auto, unfolding(arguments::specs::Judging::token_if))]
fn take_comparison(reader: &mut Reader<'_>) -> Result<Option<Comparison>, Stop>
    ensures says { Said result (token_if comparison (under reader.old)) Comparisons (under reader.new) }
    ensures grown { Grown reader.old reader.new }
{
    let mut behind = reader.cursor;
    let Some(word) = behind.next()? else {
        return Ok(None);
    };
    let found = comparison_of(word);
    if found.is_some() {
        reader.cursor = behind;
    }
    Ok(found)
}

// There is room for a test where its first value begins.
#[tactic(auto, unfolding(arguments::specs::Judging::token, arguments::specs::Judging::room_at, crate::specs::Conditions::first, arguments::specs::Values::value))]
fn room_ahead(reader: &Reader<'_>) -> Result<(), Stop>
    ensures { Roomy result reader.now.mark (under reader.now) }
{
    match reader.cursor.peek()? {
        Some(word) if is_value(word) => reader.room(word.place),
        _ => Ok(()),
    }
}

// The first value of a test.
fn first(reader: &mut Reader<'_>) -> Result<Expr, Stop>
    ensures says { Said result (first reader.old.mark (under reader.old)) (Exprs (pool_of reader.new)) (under reader.new) }
    ensures grown { Grown reader.old reader.new }
{
    room_ahead(reader)?;
    reader.value()
}

// A test, as a node.
#[tactic(auto, using(arguments::proofs::Chaining::said_went, arguments::proofs::Chaining::refuses_went), unfolding(crate::specs::Conditions::tested))]
fn tested(reader: &mut Reader<'_>) -> Result<Node, Stop>
    ensures says { Said result (tested reader.old.mark (under reader.old)) (Tests (pool_of reader.new)) (under reader.new) }
    ensures grown { Grown reader.old reader.new }
{
    let first = first(reader)?;
    let Some(comparison) = take_comparison(reader)? else {
        return Ok(Node::Exists(first));
    };
    let second = reader.value()?;
    Ok(Node::Compares(first, comparison, second))
}

// A test, whose node enters.
#[tactic(auto, using(arguments::proofs::Chaining::said_went, arguments::proofs::Chaining::refuses_went), unfolding(crate::specs::Conditions::a_test))]
fn push_test(reader: &mut Reader<'_>) -> Result<(), Stop>
    ensures says { Said result (a_test reader.old.mark (under reader.old)) (Last reader.old reader.new) (under reader.new) }
    ensures longer { Longer reader.old reader.new }
{
    let node = tested(reader)?;
    reader.push_node(node)
}

fn joint_of(word: Word) -> Option<Joint>
    ensures { result ≡ joint (seen word.entry.place word.entry.bytes.now) }
{
    if is_the_word(b"and", word) {
        return Some(Joint::And(word.place));
    }
    if is_the_word(b"or", word) {
        return Some(Joint::Or(word.place));
    }
    None
}

// The next token, which is taken, if it is `and` or `or`.
#[tactic(auto, unfolding(arguments::specs::Judging::token_if))]
fn take_joint(reader: &mut Reader<'_>) -> Result<Option<Joint>, Stop>
    ensures says { Said result (token_if joint (under reader.old)) Is (under reader.new) }
    ensures grown { Grown reader.old reader.new }
{
    let mut behind = reader.cursor;
    let Some(word) = behind.next()? else {
        return Ok(None);
    };
    let found = joint_of(word);
    if found.is_some() {
        reader.cursor = behind;
    }
    Ok(found)
}

// The node of an `and` or `or` enters.
#[tactic(auto, using(arguments::proofs::Chaining::said_went, arguments::proofs::Chaining::refuses_went))]
fn push_joint(reader: &mut Reader<'_>, joint: Joint) -> Result<(), Stop>
    ensures says { Said result (joining joint (under reader.old)) Is (under reader.new) }
    ensures pushed { OnOk result (vec_items reader.new.nodes ≡ vec_items reader.old.nodes ++ node_of joint ∷ []) }
    ensures longer { Longer reader.old reader.new }
{
    reader.room(joint.place())?;
    reader.push_node(joint.node())
}

// At most `left` tests with what joins them, up to the end of the mark.
#[tactic(auto, using(arguments::proofs::Chaining::said_went, arguments::proofs::Chaining::refuses_went))]
fn push_tests(reader: &mut Reader<'_>, left: usize) -> Result<(), Stop>
    ensures says { Said result (condition_of left reader.old.mark (under reader.old)) (Stands (pool_of reader.new) (vec_items reader.new.nodes) (length (vec_items reader.old.nodes)) (length (vec_items reader.new.nodes))) (under reader.new) }
    ensures longer { Longer reader.old reader.new }
{
    if left == 0 {
        return Err(too_many(reader.word()?));
    }
    push_test(reader)?;
    let Some(joint) = take_joint(reader)? else {
        return reader.finish();
    };
    push_joint(reader, joint)?;
    push_tests(reader, left - 1)
}

/// The condition of an `if`, `unless` or `elsif`: its nodes enter.
#[tactic(auto, unfolding(crate::specs::Conditions::condition))]
pub fn parse_condition(reader: &mut Reader<'_>) -> Result<(), Stop>
    ensures says { Said result (condition reader.old.mark (under reader.old)) (Stands (pool_of reader.new) (vec_items reader.new.nodes) (length (vec_items reader.old.nodes)) (length (vec_items reader.new.nodes))) (under reader.new) }
    ensures longer { Longer reader.old reader.new }
{
    push_tests(reader, TESTS)
}
