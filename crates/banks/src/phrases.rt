ghost use Rattle.std.specs.Prelude.{◌≡◌, codes};
ghost use Rattle.std.specs.Option.{option_map, ok_or};
ghost use Rattle.tray.specs.Parts.{same_text};
ghost use Rattle.values.specs.Meaning.{value_of};
ghost use Rattle.banks.specs.declared.causes.Cause.TheVariants.{NoPhrase};
ghost use Rattle.banks.specs.Fetched.{texted};
ghost use Rattle.banks.specs.Operands.{datum};
ghost use Rattle.banks.specs.Phrases.{phrase_of, phrase, phrases};
ghost use Rattle.banks.specs.Lawful.{phrases_lawful};

use crate::answers::{Answer, put};
use crate::bank::Bank;
use crate::causes::Cause;
use crate::operands::{Operand, Short};
use tray::records::Record;
use tray::trays::Tray;
use values::finds::find;

/// The bank of phrases: `phrase` gives the text that its input names in object 0 of a tray.
#[derive(Drop)]
pub struct Phrases<'a> {
    tray: Tray<'a>,
}

impl<'a> Phrases<'a> {
    /// The bank of a tray's phrases.
    pub fn new(tray: Tray<'a>) -> Phrases<'a>
        ensures { result.tray ≡ tray.entry }
    {
        Phrases { tray }
    }
}

// The text of a record that is a phrase.
fn phrase_at<'a>(tray: &Tray<'a>, i: usize) -> Option<Short<'a>>
    ensures { texted (ok_or result NoPhrase) ≡ phrase_of (value_of tray.now i) }
{
    let Record::Text(_) = tray.record(i) else {
        return None;
    };
    Short::new(tray.text_of(i))
}

// The phrase that the input names.
fn fetch<'a>(tray: &Tray<'a>, input: Operand, argument: Option<Operand>) -> Result<Short<'a>, Cause>
    ensures { texted result ≡ phrase (value_of tray.now 0) (datum input.entry) (option_map datum argument.entry) }
{
    if argument.is_some() {
        return Err(Cause::WrongOperand);
    }
    let Operand::Text(key) = input else {
        return Err(Cause::WrongOperand);
    };
    let i = find(tray, 0, key.bytes()).ok_or(Cause::NoPhrase)?;
    phrase_at(tray, i).ok_or(Cause::NoPhrase)
}

// Whether the bank knows the name.
#[tactic(auto, using(tray::proofs::Same::same_reads, std::proofs::lemmas::Bool::Decides::nat_tests))]
fn is_known(name: &[u8]) -> bool
    ensures { result ≡ same_text name.now (codes "phrase") }
{
    matches!(name, b"phrase")
}

impl<'a> Bank for Phrases<'a> {
    ghost meaning = { λ b. phrases (value_of b.tray 0) };

    ghost lawful = { λ b. phrases_lawful (value_of b.tray 0) };

    fn knows(&mut self, name: &[u8]) -> bool {
        is_known(name)
    }

    fn apply(
        &mut self,
        name: &[u8],
        input: Operand,
        argument: Option<Operand>,
        answer: &mut [u8; 256],
    ) -> Result<Answer, Cause> {
        if !is_known(name) {
            return Err(Cause::UnknownName);
        }
        let text = fetch(&self.tray, input, argument)?.bytes();
        put(answer, text);
        Ok(Answer::Text(text.len()))
    }
}
