//! The own text of a record, without that of the records that it holds.
ghost use Rattle.std.specs.Prelude.{◌≡◌, length};
ghost use Rattle.tray.specs.Records.{record_of};
ghost use Rattle.texts.specs.Written.{leaf_text, plain_text, Lays};

use itoa::Buffer;
use numerals::{write_bytes, write_whole};
use tray::records::Record;
use tray::trays::Tray;

// The own text of a record that is no number: without that of the records that it holds.
fn plain<'a>(tray: &Tray<'a>, i: usize) -> &'a [u8]
    ensures { result.now ≡ plain_text tray.now.text.now (record_of tray.now i) }
{
    match tray.record(i) {
        Record::Boolean(true) => b"true",
        Record::Boolean(false) => b"false",
        _ => tray.text_of(i),
    }
}

// How long the own text of a record is.
pub(crate) fn leaf_len(tray: &Tray, i: usize) -> usize
    ensures { result ≡ length (leaf_text tray.now.text.now (record_of tray.now i)) }
{
    match tray.record(i) {
        Record::Whole(n) => Buffer::new().format(n).len(),
        _ => plain(tray, i).len(),
    }
}

// Lays the own text of a record at the front of `out`, where it has room.
pub(crate) fn write_leaf(tray: &Tray, i: usize, out: &mut [u8]) -> Option<usize>
    ensures { Lays (leaf_text tray.now.text.now (record_of tray.now i)) out.old out.new result }
{
    match tray.record(i) {
        Record::Whole(n) => write_whole(n, out),
        _ => write_bytes(plain(tray, i), out),
    }
}
