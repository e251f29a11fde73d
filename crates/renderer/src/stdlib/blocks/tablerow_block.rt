// `tablerow`: the marks around its cells.
ghost use Rattle.std.specs.Prelude.{◌≡◌, ◌≤◌, ◌+◌, ◌||◌, ℕ, length, take};
ghost use Rattle.meaning.specs.Blocks.{enters, leaves, mark_if, row_mark, row_end, is_broken};
ghost use Rattle.meaning.specs.Frames.{Frames as Around, cells, row_number as row_number_of, is_col_first as is_first, is_col_last as is_last};
ghost use Rattle.meaning.specs.Looking.{World};
ghost use Rattle.meaning.specs.Things.{Drawers as Things};
ghost use Rattle.pages.specs.Written.{Wrote};
ghost use Rattle.renderer.specs.Flows.{flow_of};
ghost use Rattle.renderer.specs.Ends.{Ends};

use crate::ends::{Stopped, with_end};
use crate::flow::Flow;
use frames::columns::{column, is_col_first, is_col_last, row_number};
use held::faults::Fault;
use pages::marks::{write_cell_end, write_cell_mark, write_row_end, write_row_mark};

// Begins a row before its first cell.
fn begin_row(cols: i64, index: u16, out: &mut [u8], filled: usize) -> Result<usize, Fault>
    ensures { (w : World) → w.limit ≡ length out.old → Wrote (mark_if w (is_first cols index) (row_mark (row_number_of cols index + 1))) filled out.old out.new result }
{
    if is_col_first(cols, index) {
        write_row_mark(usize::from(row_number(cols, index)) + 1, out, filled)
    } else {
        Ok(filled)
    }
}

// Ends a row, where it is at its end.
fn end_row(ends: bool, out: &mut [u8], filled: usize) -> Result<usize, Fault>
    ensures { (w : World) → w.limit ≡ length out.old → Wrote (mark_if w ends row_end) filled out.old out.new result }
{
    if ends {
        write_row_end(out, filled)
    } else {
        Ok(filled)
    }
}

// Whether a row ends behind the visit with that index; a `break` closes it.
fn ends_row(count: u16, cols: i64, index: u16, flow: Flow) -> bool
    ensures { result ≡ (is_last cols count index || is_broken (flow_of flow)) }
{
    is_col_last(cols, count, index) || flow.is_broken()
}

/// Begins the cell of the visit with that index.
pub(crate) fn begin_cell(
    cols: i64,
    index: u16,
    out: &mut [u8],
    filled: usize,
) -> Result<usize, Stopped>
    ensures { (w : World) (p : ℕ) (e : Around) (d : Things) (v n : ℕ) → w.limit ≡ length out.old → filled ≤ length out.old → Ends (enters w (cells v n cols) index p e d (take filled out.old)) tt p e d (length out.old) out.new result }
{
    let filled = with_end(begin_row(cols, index, out, filled), filled)?;
    let number = usize::from(column(cols, index)) + 1;
    with_end(write_cell_mark(number, out, filled), filled)
}

/// Ends it.
pub(crate) fn end_cell(
    count: u16,
    cols: i64,
    index: u16,
    flow: Flow,
    out: &mut [u8],
    filled: usize,
) -> Result<usize, Stopped>
    ensures { (w : World) (p : ℕ) (e : Around) (d : Things) (v : ℕ) → w.limit ≡ length out.old → filled ≤ length out.old → Ends (leaves w (cells v count cols) index p e (flow_of flow) d (take filled out.old)) (flow_of flow) p e d (length out.old) out.new result }
{
    let filled = with_end(write_cell_end(out, filled), filled)?;
    let ends = ends_row(count, cols, index, flow);
    with_end(end_row(ends, out, filled), filled)
}
