ghost use Rattle.std.specs.Prelude.{◌≡◌, ◌+◌, ◌*◌};
ghost use Rattle.tray.specs.Decode.{read_of, one};

use crate::records::{Record, Span};

// Two numbers of two bytes each, low byte first.
fn span(a: u8, b: u8, c: u8, d: u8) -> Span
    ensures first { result.first ≡ a + b * 256 }
    ensures count { result.count ≡ c + d * 256 }
{
    Span {
        first: u16::from_le_bytes([a, b]),
        count: u16::from_le_bytes([c, d]),
    }
}

// The first record of the bytes, and the bytes behind it; `room` is the length of the tray text.
pub(crate) fn read_one<'a>(bytes: &'a [u8], room: usize) -> Option<(Record, &'a [u8])>
    ensures { read_of result ≡ one room bytes.now }
{
    match bytes {
        [0, rest @ ..] => Some((Record::Nil, rest)),
        [1, b @ (0 | 1), rest @ ..] => Some((Record::Boolean(*b == 1), rest)),
        [2, a, b, c, d, e, f, g, h, rest @ ..] => {
            let n = i64::from_le_bytes([*a, *b, *c, *d, *e, *f, *g, *h]);
            Some((Record::Whole(n), rest))
        }
        [3, a, b, c, d, rest @ ..] => {
            let text = span(*a, *b, *c, *d);
            if text.count > 256 || text.first as usize + text.count as usize > room {
                return None;
            }
            Some((Record::Text(text), rest))
        }
        [4, a, b, c, d, rest @ ..] => Some((Record::Array(span(*a, *b, *c, *d)), rest)),
        [5, a, b, c, d, rest @ ..] => Some((Record::Object(span(*a, *b, *c, *d)), rest)),
        _ => None,
    }
}
