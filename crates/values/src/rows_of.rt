//! The rows of parts that a loop may go over.
ghost use Rattle.std.specs.Prelude.{◌≡◌, map};
ghost use Rattle.std.specs.Option.{option_map};
ghost use Rattle.values.specs.Meaning.{value_of};
ghost use Rattle.values.specs.RowsOf.{stepping, pair_value, items_of, pairs_of, items_row, pairs_row};
ghost use Rattle.tray.specs.Records.{record_of};

use rows::row::Row;
use tray::records::{Record, Span};
use tray::trays::Tray;

/// The parts of an array or object, in order, each by the number of its first record; a part has `WIDTH` records.
#[derive(Clone, Copy, Debug, PartialEq, Eq)]
pub struct Parts<const WIDTH: u8> {
    span: Span,
}

/// The items of an array. Nil counts as the empty row.
pub type Items = Parts<1>;

/// The entries of an object, each as a pair of its key's record and its value's.
pub type Pairs = Parts<2>;

impl<const WIDTH: u8> Row for Parts<WIDTH> {
    type Item = usize;

    ghost items = { λ s. stepping s.span.first WIDTH s.span.count };

    fn count(&self) -> usize {
        self.span.count as usize
    }

    fn item(&self, k: usize) -> Option<usize> {
        // `then` was tried: the bounds of the place in its closure did not close.
        if k < self.span.count as usize {
            Some(self.span.first as usize + WIDTH as usize * k)
        } else {
            None
        }
    }
}

/// The items of the record i, where it is an array or nil.
pub fn items_of(tray: &Tray, i: usize) -> Option<Items>
    ensures number { result ≡ items_row (record_of tray.now i) }
    ensures values { option_map (λ s. map (value_of tray.now) (stepping s.span.first 1 s.span.count)) result ≡ items_of (value_of tray.now i) }
{
    match tray.record(i) {
        Record::Nil => Some(Parts {
            span: Span { first: 0, count: 0 },
        }),
        Record::Array(span) => Some(Parts { span }),
        _ => None,
    }
}

/// The entries of the record i as pairs, where it is an object.
pub fn pairs_of(tray: &Tray, i: usize) -> Option<Pairs>
    ensures number { result ≡ pairs_row (record_of tray.now i) }
    ensures values { option_map (λ s. map (pair_value tray.now) (stepping s.span.first 2 s.span.count)) result ≡ pairs_of (value_of tray.now i) }
{
    match tray.record(i) {
        Record::Object(span) => Some(Parts { span }),
        _ => None,
    }
}
