// Bytes and texts laid where there is room.
ghost use Rattle.std.specs.Prelude.{◌≡◌, ◌+◌, ◌≤◌, length};
ghost use Rattle.values.specs.Value.{written};
ghost use Rattle.values.specs.Meaning.{value_of};
ghost use Rattle.texts.specs.Written.{LaidAt};

use numerals::write_bytes;
use texts::write::write_text;
use tray::trays::Tray;

// Lays bytes into `out` from a place on; answers where they end.
pub(crate) fn lay(bytes: &[u8], out: &mut [u8], from: usize) -> usize
    requires { from + length bytes.now ≤ length out.old }
    ensures { LaidAt from bytes.now out.old out.new result }
{
    from + write_bytes(bytes, &mut out[from..]).unwrap()
}

// The same with the text of the record i.
pub(crate) fn lay_text(tray: &Tray, i: usize, out: &mut [u8], from: usize) -> usize
    requires { from + length (written (value_of tray.now i)) ≤ length out.old }
    ensures { LaidAt from (written (value_of tray.now i)) out.old out.new result }
{
    from + write_text(tray, i, &mut out[from..]).unwrap()
}
