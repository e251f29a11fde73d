//! A filter of the banks of sums and phrases, side by side.

ghost use Rattle.ticket.specs.Bounds.{FitsAnswer};

use crate::console::Console;
use crate::job::{Filtering, TrayParts};
use crate::json::document::{Json, Kind};
use crate::quote::push_quoted;
use banks::answers::Answer;
use banks::bank::Bank;
use banks::causes::Cause;
use banks::joined::{Joined, join};
use banks::operands::{Operand, Short};
use banks::phrases::Phrases;
use banks::sums::Sums;
use std::alloc::{AllocError, Global};
use std::io;
use tray::records::OpenError;

// Applies the filter, with the phrases of a tray, and prints its answer.
pub(crate) fn apply(
    console: Console<'_>,
    phrases: TrayParts<'_>,
    filtering: &Filtering,
) -> io::Result<()> {
    let Ok(mut bank) = bank_of(console.heap(), phrases) else {
        return console.say(b"filter failed: no memory\n");
    };
    let line = answer_line(console.heap(), &mut bank, filtering)?;
    console.say(line.as_slice())
}

// The two banks, with the phrases of a tray.
pub(crate) fn bank_of(
    heap: Global,
    phrases: TrayParts<'_>,
) -> Result<Joined<Sums, Phrases<'_>>, OpenError> {
    let tray = phrases.open(heap)?;
    Ok(join(Sums {}, Phrases::new(tray)))
}

// The operand of a JSON value, where a filter takes such a value; any other is wrong without a call.
fn operand<'a>(json: &'a Json) -> Result<Operand<'a>, Cause> {
    let whole = json.nodes.first().ok_or(Cause::WrongOperand)?;
    match whole.kind {
        Kind::Nil => Ok(Operand::Nil),
        Kind::Flag(b) => Ok(Operand::Boolean(b)),
        Kind::Whole(n) => Ok(Operand::Whole(n)),
        Kind::Text(_) => Short::new(json.texts.as_slice())
            .map(Operand::Text)
            .ok_or(Cause::WrongOperand),
        Kind::Array(_) | Kind::Object(_) => Err(Cause::WrongOperand),
    }
}

fn answer_line<B: Bank>(
    heap: Global,
    bank: &mut B,
    filtering: &Filtering,
) -> Result<Vec<u8>, AllocError> {
    let mut line = Vec::from_slice(heap, b"filter ")?;
    line.extend_from_slice(filtering.name.as_slice())?;
    let mut buffer = [0u8; 256];
    match answer(bank, filtering, &mut buffer) {
        Ok(Answer::Whole(n)) => {
            let number = format!(in heap; " ok {n}\n")?;
            line.extend_from_slice(number.as_bytes())?;
        }
        Ok(Answer::Text(n)) => {
            line.extend_from_slice(b" ok ")?;
            push_quoted(&mut line, &buffer[0..n])?;
            line.push(b'\n')?;
        }
        Err(cause) => {
            let number = cause.number();
            let reason = format!(in heap; " cause {number}: {cause}\n")?;
            line.extend_from_slice(reason.as_bytes())?;
        }
    }
    Ok(line)
}

fn answer<B: Bank>(
    bank: &mut B,
    filtering: &Filtering,
    buffer: &mut [u8; 256],
) -> Result<Answer, Cause>
    ensures { FitsAnswer result }
{
    let input = operand(&filtering.input)?;
    let argument = filtering.argument.as_ref().map(operand).transpose()?;
    bank.apply(filtering.name.as_slice(), input, argument, buffer)
}
