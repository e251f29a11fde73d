//! The records of a tray.
ghost use Rattle.std.specs.Prelude.{◌≡◌, ◌+◌, ◌*◌};

/// Bytes, records or entries that stand one after another: the number of the first, and how many.
// Items and entries of a tray are walked by a `for` over `0..count`, with `item` or `key`, since a tray gives out records
// by number and no slice.
#[derive(Clone, Copy, Debug, PartialEq, Eq)]
pub struct Span {
    pub first: u16,
    pub count: u16,
}

impl Span {
    /// The number of the record of an array's item `j`.
    pub fn item(self, j: u16) -> usize
        ensures { result ≡ self.first + j }
    {
        self.first as usize + j as usize
    }

    /// The number of the key's record of an object's entry `j`; that of its value is the next.
    pub fn key(self, j: u16) -> usize
        ensures { result ≡ self.first + 2 * j }
    {
        self.first as usize + 2 * j as usize
    }
}

/// One record of a tray: a value, whose parts are other records by number.
/// A text is a span of bytes of the tray text; an array, a span of records;
/// an object, a span of entries, each a text record and then its value record.
#[derive(Clone, Copy, Debug, PartialEq, Eq)]
pub enum Record {
    Nil,
    Boolean(bool),
    Whole(i64),
    Text(Span),
    Array(Span),
    Object(Span),
}

/// Why a tray was not opened: a rule of the format is broken, or there was no memory.
#[derive(Clone, Copy, Debug, PartialEq, Eq)]
pub enum OpenError {
    Refused,
    Memory,
}
