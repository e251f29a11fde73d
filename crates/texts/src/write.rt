//! The text of a value, laid into a buffer.
ghost use Rattle.std.specs.Prelude.{◌≡◌, ◌+◌, ◌≤◌, length};
ghost use Rattle.tray.specs.Records.{record_of};
ghost use Rattle.values.specs.Value.{written};
ghost use Rattle.values.specs.Meaning.{value_of};
ghost use Rattle.texts.specs.Written.{LaidAt, Lays, leaf_text};
ghost use Rattle.texts.specs.Laws.{ArrayTextJoined};

use crate::leaf::write_leaf;
use crate::measure::text_len;
use tray::trays::Tray;

// Lays the own text of the record i into `out` from a place on, where it has room; answers where it ends.
fn leaf_at(tray: &Tray, i: usize, out: &mut [u8], from: usize) -> usize
    requires { from + length (leaf_text tray.now.text.now (record_of tray.now i)) ≤ length out.old }
    ensures { LaidAt from (leaf_text tray.now.text.now (record_of tray.now i)) out.old out.new result }
{
    from + write_leaf(tray, i, &mut out[from..]).unwrap()
}

// The same with its whole text: its own, and then that of each record that it holds.
fn fill(tray: &Tray, i: usize, out: &mut [u8], from: usize) -> usize
    requires { from + length (written (value_of tray.now i)) ≤ length out.old }
    ensures { LaidAt from (written (value_of tray.now i)) out.old out.new result }
{
    let held = tray.record(i).holds();
    let mut end = leaf_at(tray, i, out, from);
    for c in held {
        end = fill(tray, c, out, end);
    }
    end
}

/// Lays the text of the record i at the front of `out` and answers its length;
/// nothing where `out` is shorter than the text.
pub fn write_text(tray: &Tray, i: usize, out: &mut [u8]) -> Option<usize>
    ensures written { Lays (written (value_of tray.now i)) out.old out.new result }
    ensures joined { ArrayTextJoined }
{
    // What holds no other is laid in one pass.
    if tray.record(i).holds().is_empty() {
        return write_leaf(tray, i, out);
    }
    text_len(tray, i, out.len())?;
    Some(fill(tray, i, out, 0))
}
