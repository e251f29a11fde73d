// The text of a pair: that of its key's record, and then that of its value's.
ghost use Rattle.std.specs.Prelude.{◌≡◌, ◌+◌, length, nat_le};
ghost use Rattle.values.specs.Value.{written};
ghost use Rattle.values.specs.Meaning.{value_of};
ghost use Rattle.values.specs.RowsOf.{pair_value};
ghost use Rattle.pages.specs.Pieces.{Emits};

use crate::lay::lay_text;
use held::faults::Fault;
use texts::measure::text_len;
use tray::trays::Tray;

// The record behind i; past the last record there is only nil, and any will do.
fn behind(tray: &Tray, i: usize) -> usize
    ensures { value_of tray.now result ≡ value_of tray.now (i + 1) }
{
    if i < tray.count() { i + 1 } else { i }
}

// Whether there is room for the texts of both records.
fn both_fit(tray: &Tray, key: usize, value: usize, room: usize) -> bool
    ensures { result ≡ nat_le (length (written (value_of tray.now key)) + length (written (value_of tray.now value))) room }
{
    match text_len(tray, key, room) {
        Some(count) => text_len(tray, value, room - count).is_some(),
        None => false,
    }
}

// Writes the text of the pair whose key is record i.
pub(crate) fn write_pair(
    tray: &Tray,
    i: usize,
    out: &mut [u8],
    filled: usize,
) -> Result<usize, Fault>
    ensures { Emits (written (pair_value tray.now i)) filled out.old out.new result }
{
    let value = behind(tray, i);
    let Some(room) = out.len().checked_sub(filled) else {
        return Err(Fault::NoRoom);
    };
    if !both_fit(tray, i, value, room) {
        return Err(Fault::NoRoom);
    }
    let end = lay_text(tray, i, out, filled);
    Ok(lay_text(tray, value, out, end))
}
