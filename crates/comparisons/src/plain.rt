//! The text of a boolean or a number.
ghost use Rattle.std.specs.Prelude.{◌≡◌};
ghost use Rattle.numerals.specs.Decimal.{whole_text};
ghost use Rattle.values.specs.Value.{boolean, written};
ghost use Rattle.texts.specs.Written.{Laid};

use numerals::write_whole;

// The text of a boolean.
pub(crate) fn boolean_text(b: bool) -> &'static [u8]
    ensures { result.now ≡ written (boolean b) }
{
    if b { b"true" } else { b"false" }
}

// Lays the text of a number at the front of a buffer, which has room for each, and answers its length.
pub(crate) fn lay_number(n: i64, room: &mut [u8; 20]) -> usize
    ensures { Laid (whole_text n) room.old room.new result }
{
    write_whole(n, room).unwrap()
}
