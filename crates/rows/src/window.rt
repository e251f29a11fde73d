ghost use Rattle.std.specs.Prelude.{◌≡◌, length, pos};
ghost use Rattle.std.specs.Option.{unwrap_or};
ghost use Rattle.rows.specs.Spans.{start_of, end_of};
ghost use Rattle.rows.specs.Windows.{windowed, WorkedWindows};

use crate::place::within;
use crate::row::Row;
use std::ops::Range;

/// A part of a row: the items at places not below the offset and, given a limit, below offset plus limit; reversed last.
#[derive(Clone, Copy, Debug, PartialEq, Eq)]
pub struct Window<R> {
    row: R,
    offset: i64,
    limit: Option<i64>,
    reversed: bool,
}

impl<R: Row> Window<R> {
    /// A window over a row; without an offset it begins at the row's first item.
    pub fn new(row: R, offset: Option<i64>, limit: Option<i64>, reversed: bool) -> Window<R>
        ensures made { (result.row ≡ row) × (result.offset ≡ unwrap_or offset (pos 0)) × (result.limit ≡ limit) × (result.reversed ≡ reversed) }
        ensures means { windowed result.offset result.limit result.reversed (R.Row.items result.row) ≡ windowed (unwrap_or offset (pos 0)) limit reversed (R.Row.items row) }
        ensures worked { WorkedWindows R.Item }
    {
        Window {
            row,
            offset: offset.unwrap_or(0),
            limit,
            reversed,
        }
    }

    // The places of the row that the window shows: none where the end is not past the start.
    fn places(&self) -> Range<usize>
        ensures start { result.start ≡ start_of self.now.offset (length (R.Row.items self.now.row)) }
        ensures end { result.end ≡ end_of self.now.offset self.now.limit (length (R.Row.items self.now.row)) }
    {
        let count = self.row.count();
        let offset = self.offset as i128;
        let end = self
            .limit
            .map_or(count, |limit| within(offset + limit as i128, count));
        within(offset, count)..end
    }
}

impl<R: Row> Row for Window<R> {
    type Item = R::Item;

    ghost items = { λ w. windowed w.offset w.limit w.reversed (R.Row.items w.row) };

    fn count(&self) -> usize {
        self.places().len()
    }

    fn item(&self, k: usize) -> Option<R::Item> {
        let places = self.places();
        if k >= places.len() {
            return None;
        }
        if self.reversed {
            self.row.item(places.end - 1 - k)
        } else {
            self.row.item(places.start + k)
        }
    }
}
