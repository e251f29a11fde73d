//! Records written as bytes: one kind byte, then a body whose length the kind fixes, low byte first.

ghost use Rattle.std.specs.Prelude.{◌≡◌, ◌++◌, IfOk, OnOk};
ghost use Rattle.ticket.specs.Spelling.{spelt, pair_spelt, all_spelt, ReadAsWritten};

use std::alloc::{AllocError, Global};
use tray::records::{Record, Span};

// The bytes of all records, one after another.
#[tactic(auto, using(crate::proofs::Spells::read_as_written))]
pub(crate) fn spell_all(heap: Global, records: &[Record]) -> Result<Vec<u8>, AllocError>
    ensures value { IfOk result (λ v. v.items ≡ all_spelt records.now) }
    ensures law { ReadAsWritten }
{
    let mut out = Vec::new(heap);
    for record in records {
        spell(&mut out, *record)?;
    }
    Ok(out)
}

// Writes the bytes of one record at the end of `out`.
fn spell(out: &mut Vec<u8>, it: Record) -> Result<(), AllocError>
    ensures { OnOk result (out.new.items ≡ out.old.items ++ spelt it) }
{
    match it {
        Record::Nil => out.extend_from_slice(&[0]),
        Record::Boolean(b) => out.extend_from_slice(&[1, u8::from(b)]),
        Record::Whole(n) => spell_whole(out, n),
        Record::Text(span) => spell_span(out, 3, span),
        Record::Array(span) => spell_span(out, 4, span),
        Record::Object(span) => spell_span(out, 5, span),
    }
}

fn spell_whole(out: &mut Vec<u8>, n: i64) -> Result<(), AllocError>
    ensures { OnOk result (out.new.items ≡ out.old.items ++ spelt (Record.Whole n)) }
{
    let bytes = n.to_le_bytes();
    out.push(2)?;
    out.extend_from_slice(&bytes)?;
    Ok(())
}

// A kind and the two numbers of a span, two bytes each.
fn spell_span(out: &mut Vec<u8>, kind: u8, span: Span) -> Result<(), AllocError>
    ensures { OnOk result (out.new.items ≡ out.old.items ++ pair_spelt kind span.first span.count) }
{
    let [a, b] = span.first.to_le_bytes();
    let [c, d] = span.count.to_le_bytes();
    out.extend_from_slice(&[kind, a, b, c, d])
}
