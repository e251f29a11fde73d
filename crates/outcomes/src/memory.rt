//! What a rendering leaves in its memory.

ghost use Rattle.std.specs.Prelude.{◌≡◌, length};
ghost use Rattle.meaning.specs.Calls.{filled as with_zeros};

use crate::answers::Answer;
use frames::frame::TrailRecord;
use renderer::calls::{Faulted, Refused};
use std::alloc::{AllocError, Global};

// What stands in a buffer and in a trail before.
pub(crate) const MARK: u8 = b'?';

pub(crate) const MARKED: TrailRecord = TrailRecord::Stands {
    place: 99,
    visit: 99,
};

// How many records of a trail are written.
const RECORDS: usize = 16;

// The place of the template, and the memory afterwards.
#[derive(Clone, Copy)]
pub(crate) struct Page<'a> {
    pub(crate) from: usize,
    pub(crate) buffer: &'a [u8],
    pub(crate) trail: &'a [TrailRecord],
}

impl<'a> Page<'a> {
    pub(crate) fn answer(
        self,
        heap: Global,
        rendered: Result<Option<Faulted>, Refused>,
    ) -> Result<Answer, AllocError> {
        match rendered {
            Ok(faulted) => self.rendered(heap, faulted),
            Err(refused) => self.refused(heap, refused),
        }
    }

    // The text is the buffer up to the zeros at its end.
    fn rendered(self, heap: Global, faulted: Option<Faulted>) -> Result<Answer, AllocError> {
        let mut answer = Answer::page(heap, faulted, self.from, without_zeros(self.buffer))?;
        let (written, beyond) = self.trail.split_at(RECORDS.min(self.trail.len()));
        answer.push_trail(heap, written, self.from)?;
        if !beyond.iter().all(is_marked) {
            answer.words.push_str(", and past the sixteenth record")?;
        }
        Ok(answer)
    }

    // Nothing is changed, or else it is said.
    fn refused(self, heap: Global, refused: Refused) -> Result<Answer, AllocError> {
        let mut answer = Answer::refused(heap, refused.number())?;
        if !self.trail.iter().all(is_marked) || !self.buffer.iter().all(|b| *b == MARK) {
            answer.words.push_str(", but the memory is changed")?;
        }
        Ok(answer)
    }
}

fn is_marked(record: &TrailRecord) -> bool {
    matches!(
        record,
        TrailRecord::Stands {
            place: 99,
            visit: 99
        }
    )
}

fn without_zeros(buffer: &[u8]) -> &[u8]
    ensures { with_zeros (length buffer.now) result.now ≡ buffer.now }
{
    let mut end = buffer.len();
    while end > 0 && buffer[end - 1] == 0 {
        end -= 1;
    }
    &buffer[..end]
}
