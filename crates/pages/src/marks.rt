// The marks of a table.
ghost use Rattle.std.specs.Prelude.{◌≡◌, ◌≤◌, ◌++◌, length, codes};
ghost use Rattle.numerals.specs.Decimal.{natural_text};
ghost use Rattle.meaning.specs.Blocks.{row_mark, cell_mark, cell_end, row_end};
ghost use Rattle.pages.specs.Pieces.{Puts, Emits};

use crate::lay::lay;
use crate::write::write_piece;
use held::faults::Fault;
use itoa::Buffer;

// What stands behind the number of a row or a cell.
const CLOSE: &[u8] = b"\">";

// Writes a mark that begins so, whole or not at all.
fn write_mark(start: &[u8], number: usize, out: &mut [u8], filled: usize) -> Result<usize, Fault>
    requires { length start.now ≤ 64 }
    ensures { Puts (start.now ++ (natural_text number ++ codes "\">")) filled out.old out.new result }
{
    let mut buffer = Buffer::new();
    let digits = buffer.format(number).as_bytes();
    let Some(room) = out.len().checked_sub(filled) else {
        return Err(Fault::NoRoom);
    };
    if room < start.len() + digits.len() + CLOSE.len() {
        return Err(Fault::NoRoom);
    }
    let end = lay(start, out, filled);
    let end = lay(digits, out, end);
    Ok(lay(CLOSE, out, end))
}

/// Writes the mark that begins a row of a table.
pub fn write_row_mark(number: usize, out: &mut [u8], filled: usize) -> Result<usize, Fault>
    ensures { Emits (row_mark number) filled out.old out.new result }
{
    write_mark(b"<tr class=\"row", number, out, filled)
}

/// Writes the mark that begins a cell.
pub fn write_cell_mark(number: usize, out: &mut [u8], filled: usize) -> Result<usize, Fault>
    ensures { Emits (cell_mark number) filled out.old out.new result }
{
    write_mark(b"<td class=\"col", number, out, filled)
}

/// Writes the mark that ends a cell.
pub fn write_cell_end(out: &mut [u8], filled: usize) -> Result<usize, Fault>
    ensures { Emits cell_end filled out.old out.new result }
{
    write_piece(b"</td>", out, filled)
}

/// Writes the mark that ends a row.
pub fn write_row_end(out: &mut [u8], filled: usize) -> Result<usize, Fault>
    ensures { Emits row_end filled out.old out.new result }
{
    write_piece(b"</tr>", out, filled)
}
