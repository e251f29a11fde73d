//! Texts as the table writes them.

use std::alloc::{AllocError, Global};

// The bytes of parts with blanks between: `` `TEXT` `` is its bytes, `` `TEXT`*N `` is N copies of them, and a number is the byte of that number.
// Nothing where a part is of another form.
pub(crate) fn read_text(heap: Global, form: &str) -> Result<Option<Vec<u8>>, AllocError> {
    let mut text = Vec::new(heap);
    let mut quoted: &[u8] = b"";
    let mut inside = false;
    for piece in form.split('`') {
        if inside {
            quoted = piece.as_bytes();
        } else if !push_behind(&mut text, quoted, piece)? {
            return Ok(None);
        }
        inside = !inside;
    }
    Ok(inside.then_some(text))
}

// A text in quotes, with what stands behind it: the number of its copies, and bytes. False where it is of another form.
fn push_behind(text: &mut Vec<u8>, quoted: &[u8], behind: &str) -> Result<bool, AllocError> {
    let Some((copies, rest)) = copies(behind) else {
        return Ok(false);
    };
    for _ in 0..copies {
        text.extend_from_slice(quoted)?;
    }
    push_bytes(text, rest)
}

// How many copies, and what stands behind that.
fn copies(behind: &str) -> Option<(usize, &str)> {
    match behind.strip_prefix('*') {
        Some(number) => {
            let (digits, rest) = first_word(number);
            Some((digits.parse().ok()?, rest))
        }
        None => Some((1, behind)),
    }
}

// Bytes by their numbers.
fn push_bytes(text: &mut Vec<u8>, numbers: &str) -> Result<bool, AllocError> {
    for word in numbers.split(' ') {
        if !word.is_empty() {
            let Ok(byte) = word.parse() else {
                return Ok(false);
            };
            text.push(byte)?;
        }
    }
    Ok(true)
}

// The bytes up to the first blank, and those behind it.
pub(crate) fn first_word(line: &str) -> (&str, &str) {
    line.split_once(' ').unwrap_or((line, ""))
}
