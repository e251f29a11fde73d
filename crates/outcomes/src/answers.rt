//! Answers as the table writes them: words, and a text.

use drawers::kept::{Kept, lend};
use frames::frame::TrailRecord;
use held::faults::Fault;
use held::value::Value;
use renderer::calls::Faulted;
use std::alloc::{AllocError, Global};

#[derive(Drop)]
pub(crate) struct Answer {
    pub(crate) words: String,
    pub(crate) text: Vec<u8>,
}

impl Answer {
    pub(crate) fn new(heap: Global, words: &str, text: &[u8]) -> Result<Answer, AllocError> {
        Ok(Answer {
            words: String::from_str(heap, words)?,
            text: Vec::from_slice(heap, text)?,
        })
    }

    pub(crate) fn words(heap: Global, words: String) -> Answer {
        Answer {
            words,
            text: Vec::new(heap),
        }
    }

    pub(crate) fn refused(heap: Global, number: u8) -> Result<Answer, AllocError> {
        Ok(Answer::words(heap, format!(in heap; "refused {number}")?))
    }

    // `nothing`, `nil`, a boolean, a number, `text` with the text, or the kind and the record's number.
    pub(crate) fn variable(heap: Global, variable: Option<&Kept>) -> Result<Answer, AllocError> {
        let Some(kept) = variable else {
            return Answer::new(heap, "nothing", b"");
        };
        let words = match lend(kept) {
            Value::Text(text) => return Answer::new(heap, "text", text),
            Value::Nil => String::from_str(heap, "nil")?,
            Value::Boolean(b) => format!(in heap; "{b}")?,
            Value::Whole(n) => format!(in heap; "{n}")?,
            Value::Array(i) => format!(in heap; "array {i}")?,
            Value::Object(i) => format!(in heap; "object {i}")?,
            Value::Pair(i) => format!(in heap; "pair {i}")?,
        };
        Ok(Answer::words(heap, words))
    }

    // `ok`, or `fault NUMBER[.CAUSE] at PLACE`; with the text, the place counted from the template's.
    pub(crate) fn page(
        heap: Global,
        faulted: Option<Faulted>,
        from: usize,
        text: &[u8],
    ) -> Result<Answer, AllocError> {
        let Some(Faulted { fault, place }) = faulted else {
            return Answer::new(heap, "ok", text);
        };
        let number = fault.number();
        let place = place.saturating_sub(from);
        let words = match fault.cause() {
            Some(cause) => format!(in heap; "fault {number}.{} at {place}", cause.number())?,
            None => format!(in heap; "fault {number} at {place}")?,
        };
        Ok(Answer {
            words,
            text: Vec::from_slice(heap, text)?,
        })
    }

    // ` in PLACE:VISIT` for each record that is not blank.
    pub(crate) fn push_trail(
        &mut self,
        heap: Global,
        trail: &[TrailRecord],
        from: usize,
    ) -> Result<(), AllocError> {
        for record in trail {
            if let TrailRecord::Stands { place, visit } = record {
                let place = place.saturating_sub(from);
                let words = format!(in heap; " in {place}:{visit}")?;
                self.words.push_str(words.as_str())?;
            }
        }
        Ok(())
    }

    pub(crate) fn is(&self, words: &str, text: &[u8]) -> bool {
        self.words.as_str() == words && self.text.as_slice() == text
    }
}
