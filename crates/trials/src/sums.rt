//! Calls on a bank that keeps a note.

use crate::words::{Wrong, text, word};
use banks::answers::Answer;
use banks::bank::Bank;
use banks::causes::Cause;
use banks::operands::{Operand, Short};
use banks::sums::Sums;
use std::alloc::Global;
use std::str::SplitWhitespace;

// A bank that notes how often it was asked. No answer depends on the note.
#[derive(Drop)]
struct Counted<B> {
    bank: B,
    asked: u8,
}

impl<B: Bank> Bank for Counted<B> {
    ghost meaning = { λ c. B.Bank.meaning c.bank };

    ghost lawful = { λ c. B.Bank.lawful c.bank };

    fn knows(&mut self, name: &[u8]) -> bool {
        self.asked = self.asked.wrapping_add(1);
        self.bank.knows(name)
    }

    fn apply(
        &mut self,
        name: &[u8],
        input: Operand,
        argument: Option<Operand>,
        answer: &mut [u8; 256],
    ) -> Result<Answer, Cause> {
        self.asked = self.asked.wrapping_add(1);
        self.bank.apply(name, input, argument, answer)
    }
}

fn operand<'a>(bytes: &'a [u8]) -> Operand<'a> {
    Short::new(bytes).map_or(Operand::Nil, Operand::Text)
}

// sum NAME 'INPUT' 'ARGUMENT': how often the bank was asked, and its number or cause.
pub(crate) fn sum(heap: Global, words: &mut SplitWhitespace<'_>) -> Result<String, Wrong> {
    let name = word(words)?.as_bytes();
    let input = text(words)?;
    let argument = text(words)?;
    let mut bank = Counted {
        bank: Sums,
        asked: 0,
    };
    let mut answer = [0; 256];
    if !bank.knows(name) {
        let asked = bank.asked;
        return Ok(format!(in heap; "{asked} unknown")?);
    }
    let sum = bank.apply(name, operand(input), Some(operand(argument)), &mut answer);
    let asked = bank.asked;
    match sum {
        Ok(Answer::Whole(n)) => Ok(format!(in heap; "{asked} {n}")?),
        Ok(Answer::Text(_)) => Err(Wrong::Case),
        Err(cause) => {
            let cause = cause.number();
            Ok(format!(in heap; "{asked} cause {cause}")?)
        }
    }
}
