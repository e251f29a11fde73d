// Values that go through filters.
ghost use Rattle.std.specs.Prelude.{◌≡◌};
ghost use Rattle.std.specs.Option.{option_map};
ghost use Rattle.banks.specs.Operands.{datum};
ghost use Rattle.drawers.specs.Shown.{shows};
ghost use Rattle.held.specs.Records.{held_in};
ghost use Rattle.meaning.specs.Chains.{fit as fit_of, fit_argument as fit_argument_of};
ghost use Rattle.evaluation.specs.Chains.{chained_in, given_in, Argued, Called, Applied, CameThrough};

use crate::looking::eval;
use crate::names::part_in;
use banks::answers::Answer;
use banks::bank::Bank;
use banks::causes::Cause;
use banks::operands::{Operand, Short};
use drawers::things::Drawers;
use frames::stack::Frames;
use held::faults::Fault;
use held::scenes::Scene;
use held::value::Value;
use nodes::book::entries;
use nodes::exprs::{Chain, Expr, Filter};

/// What a chain comes to: the value itself, where there is no filter, or what the last filter gave, with its text in an answer buffer.
#[derive(Clone, Copy)]
pub enum Chained<'a> {
    Same(Value<&'a [u8]>),
    Given(Answer),
}

// What a filter gave, as a value.
fn given(answer: &[u8; 256], what: Answer) -> Value<&[u8]>
    ensures { held_in result ≡ given_in answer.now what }
{
    match what {
        Answer::Whole(n) => Value::Whole(n),
        Answer::Text(count) => Value::Text(answer.get(..count).unwrap_or(answer)),
    }
}

/// The value, of which a text that a filter gave stands in `answer`.
pub fn value_in<'a>(chained: Chained<'a>, answer: &'a [u8; 256]) -> Value<&'a [u8]>
    ensures { held_in result ≡ chained_in answer.now chained.entry }
{
    match chained {
        Chained::Same(value) => value,
        Chained::Given(what) => given(answer, what),
    }
}

// A value as an operand, unless it is an array, object or pair, or a text of over 256 bytes.
fn fit<'a>(value: Value<&'a [u8]>) -> Option<Operand<'a>>
    ensures { option_map datum result ≡ fit_of (held_in value.entry) }
{
    match value {
        Value::Nil => Some(Operand::Nil),
        Value::Boolean(b) => Some(Operand::Boolean(b)),
        Value::Whole(n) => Some(Operand::Whole(n)),
        Value::Text(bytes) => Some(Operand::Text(Short::new(bytes)?)),
        Value::Array(_) | Value::Object(_) | Value::Pair(_) => None,
    }
}

// The same with an argument that may be missing.
fn fit_argument<'a>(argument: Option<Value<&'a [u8]>>) -> Option<Option<Operand<'a>>>
    ensures { option_map (option_map datum) result ≡ fit_argument_of (option_map held_in argument.entry) }
{
    match argument {
        None => Some(None),
        Some(value) => Some(Some(fit(value)?)),
    }
}

// What the argument of a filter comes to, where it has one.
fn argument<'a>(
    scene: Scene<'a>,
    frames: &Frames,
    drawers: &'a Drawers,
    argument: Option<Expr>,
) -> Result<Option<Value<&'a [u8]>>, Fault>
    ensures { Argued scene.entry frames.now (shows drawers.now) argument result }
{
    match argument {
        None => Ok(None),
        Some(value) => Ok(Some(eval(scene, frames, drawers, value)?)),
    }
}

// What the filter of that name gives; an unfit operand is a fault, and the bank is not called.
fn call<B: Bank>(
    bank: &mut B,
    name: &[u8],
    input: Value<&[u8]>,
    argument: Option<Value<&[u8]>>,
    answer: &mut [u8; 256],
) -> Result<Answer, Fault>
    ensures gives { Called (B.Bank.meaning bank.old) name.now (held_in input.entry) (option_map held_in argument.entry) answer.new result }
    ensures same { B.Bank.meaning bank.new ≡ B.Bank.meaning bank.old }
{
    let input = fit(input).ok_or(Fault::Filter(Cause::WrongOperand))?;
    let argument = fit_argument(argument).ok_or(Fault::Filter(Cause::WrongOperand))?;
    bank.apply(name, input, argument, answer)
        .map_err(Fault::Filter)
}

// What a filter gives for the value so far. The argument is evaluated before either operand is found unfit.
fn apply<'a, B: Bank>(
    scene: Scene<'a>,
    frames: &Frames,
    drawers: &'a Drawers,
    bank: &mut B,
    filter: Filter,
    input: Chained<'a>,
    answer: &mut [u8; 256],
) -> Result<Answer, Fault>
    ensures gives { Applied scene.entry frames.now (shows drawers.now) (B.Bank.meaning bank.old) filter (chained_in answer.old input.entry) answer.new result }
    ensures same { B.Bank.meaning bank.new ≡ B.Bank.meaning bank.old }
{
    let argument = argument(scene, frames, drawers, filter.argument)?;
    let before = *answer;
    let name = part_in(scene.book, filter.name);
    call(bank, name, value_in(input, &before), argument, answer)
}

/// What a value comes to behind its filters, from left to right. Only `answer` is changed, and there the text of an answer stands.
pub fn chain<'a, B: Bank>(
    scene: Scene<'a>,
    frames: &Frames,
    drawers: &'a Drawers,
    bank: &mut B,
    chain: Chain,
    answer: &mut [u8; 256],
) -> Result<Chained<'a>, Fault>
    ensures gives { CameThrough scene.entry frames.now (shows drawers.now) (B.Bank.meaning bank.old) chain answer.new result }
    ensures same { B.Bank.meaning bank.new ≡ B.Bank.meaning bank.old }
{
    let mut so_far = Chained::Same(eval(scene, frames, drawers, chain.value)?);
    let mut left = entries(scene.book.filters, chain.filters);
    while let Some((filter, rest)) = left.split_first() {
        let what = apply(scene, frames, drawers, bank, *filter, so_far, answer)?;
        so_far = Chained::Given(what);
        left = rest;
    }
    Ok(so_far)
}
