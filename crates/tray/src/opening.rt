ghost use Rattle.std.specs.Prelude.{◌≡◌, length, Some, MatchResult};
ghost use Rattle.tray.specs.declared.records.OpenError.TheVariants.{Memory};
ghost use Rattle.tray.specs.Accept.{Accepts, Never};
ghost use Rattle.tray.specs.Decode.{Why, number_of, words_of};
ghost use Rattle.tray.specs.Parts.{key_of};
ghost use Rattle.tray.specs.Records.{record_of};

use crate::judging::sound;
use crate::loading::load;
use crate::parts::key_of;
use crate::records::{OpenError, Record};
use crate::trays::Tray;
use std::alloc::{AllocError, AllocFailed, Global};
use std::error::Error;
use std::fmt;

impl From<AllocError> for OpenError {
    ghost from_gives = { λ _ e. e ≡ Memory };

    fn from(_e: AllocError) -> OpenError {
        OpenError::Memory
    }
}

impl<T: Drop> From<AllocFailed<T>> for OpenError {
    ghost from_gives = { λ _ e. e ≡ Memory };

    fn from(_e: AllocFailed<T>) -> OpenError {
        OpenError::Memory
    }
}

// By hand and no derive, since a clause says what it writes.
impl fmt::Display for OpenError {
    ghost output = { λ e. Some (words_of e) };

    fn fmt<W: fmt::Write>(&self, f: &mut fmt::Formatter<W>) -> fmt::Result {
        f.write_str(match self {
            OpenError::Refused =>
                "a rule of the record format is broken, or a host name is reserved",
            OpenError::Memory => "no memory",
        })
    }
}

impl Error for OpenError {}

impl OpenError {
    /// The number of the refusal; want of memory has none, so it is no discriminant.
    pub fn number(self) -> Option<u8>
        ensures { result ≡ number_of self }
    {
        match self {
            OpenError::Refused => Some(10),
            OpenError::Memory => None,
        }
    }
}

impl<'a> Tray<'a> {
    /// Opens host data: the bytes of its records, and the text that they cite.
    /// It is refused exactly where the bytes are those of no tray.
    pub fn open(heap: Global, bytes: &[u8], text: &'a [u8]) -> Result<Tray<'a>, OpenError>
        ensures { MatchResult result (λ t. Accepts bytes.now text.now t.records.items × (t.text.now ≡ text.now)) (λ e. Why e (Never bytes.now text.now)) }
    {
        let records = load(heap, bytes, text.len(), 2048)?;
        if !sound(heap, records.as_slice(), text)? {
            return Err(OpenError::Refused);
        }
        Ok(Tray { records, text })
    }

    /// How many records there are.
    pub fn count(&self) -> usize
        ensures { result ≡ length self.now.records.items }
    {
        self.records.len()
    }

    /// A record by number; past the end there is only nil.
    pub fn record(&self, i: usize) -> Record
        ensures { result ≡ record_of self.now i }
    {
        self.records.get(i).copied().unwrap_or(Record::Nil)
    }

    /// The bytes of a text record; of any other, none.
    pub fn text_of(&self, i: usize) -> &'a [u8]
        ensures { result.now ≡ key_of self.now.text.now (record_of self.now i) }
    {
        key_of(self.text, self.record(i))
    }
}
