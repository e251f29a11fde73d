// Pieces, written whole or not at all.
ghost use Rattle.std.specs.Prelude.{◌≡◌, cond, codes};
ghost use Rattle.held.specs.Value.{held_by};
ghost use Rattle.numerals.specs.Decimal.{whole_text};
ghost use Rattle.values.specs.Value.{written};
ghost use Rattle.values.specs.Meaning.{value_of};
ghost use Rattle.pages.specs.Pieces.{Emits, text_in};

use crate::pairs::write_pair;
use held::faults::Fault;
use held::value::Value;
use itoa::Buffer;
use numerals::write_bytes;
use texts::write::write_text;
use tray::trays::Tray;

/// Writes bytes behind the text, which ends at `filled`; answers where it ends then.
pub fn write_piece(bytes: &[u8], out: &mut [u8], filled: usize) -> Result<usize, Fault>
    ensures { Emits bytes.now filled out.old out.new result }
{
    if out.len() < filled {
        return Err(Fault::NoRoom);
    }
    let Some(count) = write_bytes(bytes, &mut out[filled..]) else {
        return Err(Fault::NoRoom);
    };
    Ok(filled + count)
}

/// Writes the decimal text of a number.
pub fn write_number(n: i64, out: &mut [u8], filled: usize) -> Result<usize, Fault>
    ensures { Emits (whole_text n) filled out.old out.new result }
{
    write_piece(Buffer::new().format(n).as_bytes(), out, filled)
}

// The text of a boolean.
fn boolean_text(b: bool) -> &'static [u8]
    ensures { result.now ≡ cond b (codes "true") (codes "false") }
{
    if b { b"true" } else { b"false" }
}

// Writes the text of the record i.
fn write_record(tray: &Tray, i: usize, out: &mut [u8], filled: usize) -> Result<usize, Fault>
    ensures { Emits (written (value_of tray.now i)) filled out.old out.new result }
{
    if out.len() < filled {
        return Err(Fault::NoRoom);
    }
    let Some(count) = write_text(tray, i, &mut out[filled..]) else {
        return Err(Fault::NoRoom);
    };
    Ok(filled + count)
}

/// Writes the text of a value.
pub fn write_value(
    tray: &Tray,
    value: Value<&[u8]>,
    out: &mut [u8],
    filled: usize,
) -> Result<usize, Fault>
    ensures { Emits (text_in tray.now (held_by (λ t. t.now) value.entry)) filled out.old out.new result }
{
    match value {
        Value::Nil => write_piece(b"", out, filled),
        Value::Boolean(b) => write_piece(boolean_text(b), out, filled),
        Value::Whole(n) => write_number(n, out, filled),
        Value::Text(bytes) => write_piece(bytes, out, filled),
        Value::Array(i) => write_record(tray, i, out, filled),
        Value::Object(i) => write_record(tray, i, out, filled),
        Value::Pair(i) => write_pair(tray, i, out, filled),
    }
}
