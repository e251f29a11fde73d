// `for` and `tablerow`: what they go over.
ghost use Rattle.std.specs.Prelude.{◌≡◌, ◌+◌};
ghost use Rattle.std.specs.Option.{option_map};
ghost use Rattle.drawers.specs.Shown.{shows};
ghost use Rattle.frames.specs.Items.{item_of};
ghost use Rattle.held.specs.Records.{held_in};
ghost use Rattle.held.specs.Scenes.{host_of};
ghost use Rattle.meaning.specs.Hosts.{record_at};
ghost use Rattle.meaning.specs.Rows.{record_row, row as row_of};
ghost use Rattle.tray.specs.Records.{record_of};
ghost use Rattle.renderer.specs.Openings.{row_items, RangeMade, RowFound, NumberIfFound, ForOpened, LaidOut, TableOpened};

use crate::openings::Opened;
use drawers::things::Drawers;
use evaluation::looking::{eval, number};
use frames::item::AnyRow;
use frames::stack::Frames;
use held::faults::Fault;
use held::scenes::Scene;
use held::value::Value;
use nodes::exprs::{Expr, Row};
use rows::numbers::Numbers;
use rows::window::Window;
use tray::records::Record;
use tray::trays::Tray;
use values::rows_of::{items_of, pairs_of};

// The row of a record.
fn record_row(tray: &Tray, i: usize) -> Option<AnyRow>
    ensures { option_map (row_items (host_of tray.now)) result ≡ record_row (host_of tray.now) (record_of tray.now i) }
{
    match tray.record(i) {
        Record::Array(_) => Some(AnyRow::Items(items_of(tray, i)?)),
        Record::Object(_) => Some(AnyRow::Pairs(pairs_of(tray, i)?)),
        _ => None,
    }
}

// The record behind record i; where no number is left, one that is nil like it.
fn next_record(tray: &Tray, i: usize) -> usize
    ensures { record_at (host_of tray.now) result ≡ record_at (host_of tray.now) (i + 1) }
{
    if i < tray.count() { i + 1 } else { i }
}

// The row that a value is. Nil is the empty row.
fn row_in(tray: &Tray, value: Value<&[u8]>) -> Option<AnyRow>
    ensures { option_map (row_items (host_of tray.now)) result ≡ row_of (host_of tray.now) (held_in value.entry) }
{
    match value {
        Value::Nil => Some(AnyRow::Nothing),
        Value::Array(i) | Value::Object(i) => record_row(tray, i),
        Value::Pair(i) => Some(AnyRow::Pair {
            key: i,
            value: next_record(tray, i),
        }),
        _ => None,
    }
}

// The numbers from one to another; over 4,096 of them are a fault.
fn range(from: i64, to: i64) -> Result<AnyRow, Fault>
    ensures { RangeMade from to result }
{
    match Numbers::new(from, to) {
        Some(numbers) => Ok(AnyRow::Numbers(numbers)),
        None => Err(Fault::LongRange),
    }
}

// What a loop goes over.
fn gone_over(scene: Scene, frames: &Frames, drawers: &Drawers, row: Row) -> Result<AnyRow, Fault>
    ensures { RowFound scene.entry frames.now (shows drawers.now) row result }
{
    match row {
        Row::Of(value) => {
            let value = eval(scene, frames, drawers, value)?;
            row_in(scene.tray, value).ok_or(Fault::NoRow)
        }
        Row::Range(from, to) => {
            let from = number(scene, frames, drawers, from)?;
            let to = number(scene, frames, drawers, to)?;
            range(from, to)
        }
    }
}

// The number of an attribute, where it is written.
fn number_if(
    scene: Scene,
    frames: &Frames,
    drawers: &Drawers,
    value: Option<Expr>,
) -> Result<Option<i64>, Fault>
    ensures { NumberIfFound scene.entry frames.now (shows drawers.now) value result }
{
    match value {
        None => Ok(None),
        Some(value) => Ok(Some(number(scene, frames, drawers, value)?)),
    }
}

/// Opens a `for`: its row, then `limit` and `offset`, however they were written.
pub(crate) fn open_for<'a>(
    scene: Scene<'a>,
    frames: &Frames,
    drawers: &Drawers,
    row: Row,
    limit: Option<Expr>,
    offset: Option<Expr>,
    reversed: bool,
) -> Result<Opened<'a>, Fault>
    ensures { ForOpened scene.entry frames.now (shows drawers.now) row limit offset reversed result }
{
    let row = gone_over(scene, frames, drawers, row)?;
    let limit = number_if(scene, frames, drawers, limit)?;
    let offset = number_if(scene, frames, drawers, offset)?;
    let (window, times) = row.shown(offset, limit, reversed);
    Ok(Opened::Loop { window, times })
}

// A table over a window: without `cols`, all items stand in one row; with items it needs a column.
fn laid_out<'a>(window: Window<AnyRow>, times: u16, cols: Option<i64>) -> Result<Opened<'a>, Fault>
    ensures { LaidOut window times cols result }
{
    let cols = cols.unwrap_or(i64::from(times));
    if times > 0 && cols == 0 {
        return Err(Fault::NoColumn);
    }
    Ok(Opened::Table {
        window,
        times,
        cols,
    })
}

/// Opens a `tablerow`: its row, then `cols`, `limit` and `offset`.
pub(crate) fn open_table<'a>(
    scene: Scene<'a>,
    frames: &Frames,
    drawers: &Drawers,
    row: Row,
    cols: Option<Expr>,
    limit: Option<Expr>,
    offset: Option<Expr>,
) -> Result<Opened<'a>, Fault>
    ensures { TableOpened scene.entry frames.now (shows drawers.now) row cols limit offset result }
{
    let row = gone_over(scene, frames, drawers, row)?;
    let cols = number_if(scene, frames, drawers, cols)?;
    let limit = number_if(scene, frames, drawers, limit)?;
    let offset = number_if(scene, frames, drawers, offset)?;
    let (window, times) = row.shown(offset, limit, false);
    laid_out(window, times, cols)
}
