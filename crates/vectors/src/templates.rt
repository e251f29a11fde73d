//! Templates as the table writes them: texts in quotes with blanks between, and `"TEXT"*N` for N copies, in which `#` is the number of the copy.

use crate::faults::Fault;
use std::alloc::{AllocError, Global};

// Between texts, in a text, behind a backslash of it, behind so many digits of a `\u` with the byte that they make, behind a text, or in its number of copies.
#[derive(Clone, Copy)]
enum State {
    Between,
    Text,
    Escaped,
    Code(usize, u8),
    Behind,
    Copies(usize),
}

// The texts up to the last, the bytes of the last, and where the reading stands.
#[derive(Drop)]
struct Reader {
    heap: Global,
    texts: Vec<u8>,
    last: Vec<u8>,
    state: State,
}

pub(crate) fn template(heap: Global, line: usize, form: &str) -> Result<Vec<u8>, Fault> {
    let mut reader = Reader {
        heap,
        texts: Vec::new(heap),
        last: Vec::new(heap),
        state: State::Between,
    };
    for b in form.bytes() {
        reader.state = reader.step(b)?.ok_or(Fault::Line(line))?;
    }
    match reader.step(b' ')? {
        Some(State::Between) => Ok(reader.texts),
        _ => Err(Fault::Line(line)),
    }
}

impl Reader {
    // Where the reading stands behind the byte; nowhere if it is wrong there.
    fn step(&mut self, b: u8) -> Result<Option<State>, AllocError> {
        match (self.state, b) {
            (State::Between, b' ') => Ok(Some(State::Between)),
            (State::Between, b'"') => Ok(Some(State::Text)),
            (State::Text, b'"') => Ok(Some(State::Behind)),
            (State::Text, b'\\') => Ok(Some(State::Escaped)),
            (State::Text, _) => self.push(b),
            (State::Escaped, b'u') => Ok(Some(State::Code(0, 0))),
            (State::Escaped, b'n') => self.push(b'\n'),
            (State::Escaped, b'r') => self.push(b'\r'),
            (State::Escaped, b't') => self.push(b'\t'),
            (State::Escaped, b'"' | b'\\') => self.push(b),
            (State::Code(digits, code), _) => match with_digit(code, b) {
                Some(code) if digits == 3 => self.push(code),
                code => Ok(code.map(|code| State::Code(digits.saturating_add(1), code))),
            },
            (State::Behind, b' ') => self.end(),
            (State::Behind, b'*') => Ok(Some(State::Copies(0))),
            (State::Copies(n), b' ') => self.copy(n),
            (State::Copies(n), b'0'..=b'9') => Ok(Some(State::Copies(
                n.saturating_mul(10).saturating_add((b - b'0') as usize),
            ))),
            _ => Ok(None),
        }
    }

    fn push(&mut self, b: u8) -> Result<Option<State>, AllocError> {
        self.last.push(b)?;
        Ok(Some(State::Text))
    }

    fn end(&mut self) -> Result<Option<State>, AllocError> {
        self.texts.extend_from_slice(self.last.as_slice())?;
        self.last = Vec::new(self.heap);
        Ok(Some(State::Between))
    }

    fn copy(&mut self, n: usize) -> Result<Option<State>, AllocError> {
        for k in 0..n {
            let number = format!(in self.heap; "{k}")?;
            self.push_copy(number.as_str())?;
        }
        self.last = Vec::new(self.heap);
        Ok(Some(State::Between))
    }

    fn push_copy(&mut self, number: &str) -> Result<(), AllocError> {
        for b in &self.last {
            match b {
                b'#' => self.texts.extend_from_slice(number.as_bytes())?,
                b => self.texts.push(*b)?,
            }
        }
        Ok(())
    }
}

// The byte with one hex digit more.
fn with_digit(code: u8, b: u8) -> Option<u8> {
    let digit = match b {
        b'0'..=b'9' => b - b'0',
        b'a'..=b'f' => b - b'a' + 10,
        _ => return None,
    };
    code.checked_mul(16)?.checked_add(digit)
}
