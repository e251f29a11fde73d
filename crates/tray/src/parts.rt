//! Parts of a text.
ghost use Rattle.std.specs.Prelude.{◌≡◌};
ghost use Rattle.tray.specs.Parts.{cut as cut_out, key_of, same_text};

use crate::records::Record;

/// A part of a text; what lies past the end is left out.
pub fn cut(text: &[u8], place: usize, len: usize) -> &[u8]
    ensures { result.now ≡ cut_out text.now place len }
{
    // `get` in place of the two tests made a search for a key twice as long.
    let rest = if place < text.len() {
        &text[place..]
    } else {
        &text[..0]
    };
    if len < rest.len() { &rest[..len] } else { rest }
}

// The bytes of a text record; of any other, none.
pub(crate) fn key_of(text: &[u8], of: Record) -> &[u8]
    ensures { result.now ≡ key_of text.now of }
{
    match of {
        Record::Text(s) => cut(text, s.first as usize, s.count as usize),
        _ => &[],
    }
}

/// Whether two texts are the same, byte by byte: the `==` of slices, in the words of the definitions.
pub fn same_text(a: &[u8], b: &[u8]) -> bool
    ensures { result ≡ same_text a.now b.now }
{
    a == b
}
