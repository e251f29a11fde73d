ghost use Rattle.std.specs.Prelude.{◌≡◌, Some};
ghost use Rattle.std.specs.Option.{option_map};
ghost use Rattle.numerals.specs.Decimal.{if_fits};
ghost use Rattle.banks.specs.Operands.{datum};
ghost use Rattle.banks.specs.Operations.{rule, numbered};
ghost use Rattle.banks.specs.Sums.{operation as operation_of, whole_in, whole_in_argument, calculated, sums};
ghost use Rattle.banks.specs.Lawful.{sums_lawful};

use crate::answers::{Answer, clear};
use crate::bank::Bank;
use crate::causes::Cause;
use crate::operands::Operand;
use numerals::read_whole;

/// The bank of sums: `plus`, `minus` and `times` on whole numbers.
#[derive(Clone, Copy, Debug, PartialEq, Eq)]
pub struct Sums;

// An enum: a function that hands out a function is not let through.
#[derive(Clone, Copy, Debug, PartialEq, Eq)]
enum Operation {
    Plus,
    Minus,
    Times,
}

// The operation of that name.
#[tactic(auto, using(tray::proofs::Same::same_reads, std::proofs::lemmas::Bool::Decides::nat_tests))]
fn named(name: &[u8]) -> Option<Operation>
    ensures { option_map rule result ≡ operation_of name.now }
{
    match name {
        b"plus" => Some(Operation::Plus),
        b"minus" => Some(Operation::Minus),
        b"times" => Some(Operation::Times),
        _ => None,
    }
}

// The whole number that an operand is read as.
fn whole_in(operand: Operand) -> Option<i64>
    ensures { result ≡ whole_in (datum operand.entry) }
{
    match operand {
        Operand::Nil | Operand::Boolean(_) => None,
        Operand::Whole(n) => Some(n),
        Operand::Text(t) => read_whole(t.bytes()),
    }
}

// The result, unless it is beyond 64 signed bits.
fn work_out(operation: Operation, a: i64, b: i64) -> Option<i64>
    ensures { result ≡ if_fits (Some (rule operation a b)) }
{
    match operation {
        Operation::Plus => a.checked_add(b),
        Operation::Minus => a.checked_sub(b),
        Operation::Times => a.checked_mul(b),
    }
}

fn calculate(operation: Operation, input: Operand, argument: Option<Operand>) -> Result<i64, Cause>
    ensures { numbered result ≡ calculated (rule operation) (whole_in (datum input.entry)) (whole_in_argument (option_map datum argument.entry)) }
{
    let a = whole_in(input).ok_or(Cause::WrongOperand)?;
    let b = argument.and_then(whole_in).ok_or(Cause::WrongOperand)?;
    work_out(operation, a, b).ok_or(Cause::Overflow)
}

impl Bank for Sums {
    ghost meaning = { λ _. sums };

    ghost lawful = { λ _. sums_lawful };

    fn knows(&mut self, name: &[u8]) -> bool {
        named(name).is_some()
    }

    fn apply(
        &mut self,
        name: &[u8],
        input: Operand,
        argument: Option<Operand>,
        answer: &mut [u8; 256],
    ) -> Result<Answer, Cause> {
        let operation = named(name).ok_or(Cause::UnknownName)?;
        let n = calculate(operation, input, argument)?;
        clear(answer);
        Ok(Answer::Whole(n))
    }
}
