//! How long the text of a value is.
ghost use Rattle.std.specs.Prelude.{◌≡◌, length};
ghost use Rattle.values.specs.Value.{written};
ghost use Rattle.values.specs.Meaning.{value_of};
ghost use Rattle.texts.specs.Written.{if_room, leaves};

use crate::leaf::leaf_len;
use tray::trays::Tray;

fn after(room: usize, n: usize) -> Option<usize>
    ensures { result ≡ leaves room n }
{
    room.checked_sub(n)
}

// What is left of `room` after the text of the record i: its own, and then that of each record that it holds.
fn left_after(tray: &Tray, i: usize, room: usize) -> Option<usize>
    ensures { result ≡ leaves room (length (written (value_of tray.now i))) }
{
    let held = tray.record(i).holds();
    let mut left = after(room, leaf_len(tray, i))?;
    for c in held {
        left = left_after(tray, c, left)?;
    }
    Some(left)
}

/// How long the text of the record i is, where that is at most `room`.
pub fn text_len(tray: &Tray, i: usize, room: usize) -> Option<usize>
    ensures { result ≡ if_room room (length (written (value_of tray.now i))) }
{
    let left = left_after(tray, i, room)?;
    Some(room - left)
}
