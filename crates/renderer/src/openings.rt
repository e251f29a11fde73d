// What a block evaluates when it is opened.
ghost use Rattle.std.specs.Prelude.{◌≡◌, Some};
ghost use Rattle.drawers.specs.Shown.{shows};
ghost use Rattle.renderer.specs.Openings.{BlockOpened, CaseOpened};

use crate::stdlib::blocks::for_block::{open_for, open_table};
use drawers::things::Drawers;
use evaluation::looking::eval;
use frames::item::AnyRow;
use frames::stack::Frames;
use held::faults::Fault;
use held::scenes::Scene;
use held::value::Value;
use nodes::exprs::Expr;
use nodes::table::Block;
use rows::window::Window;

/// What an opening found: nothing, the target of a `case`, or the window of a loop with the count of its items, for a table with its `cols`.
#[derive(Clone, Copy)]
pub(crate) enum Opened<'a> {
    Bare,
    Target(Value<&'a [u8]>),
    Loop {
        window: Window<AnyRow>,
        times: u16,
    },
    Table {
        window: Window<AnyRow>,
        times: u16,
        cols: i64,
    },
}

/// Opens a block that is no `case`.
pub(crate) fn open_block<'a>(
    scene: Scene<'a>,
    frames: &Frames,
    drawers: &'a Drawers,
    block: Block,
) -> Result<Opened<'a>, Fault>
    ensures { BlockOpened scene.entry frames.now (shows drawers.now) block result }
{
    match block {
        Block::For {
            row,
            limit,
            offset,
            reversed,
            ..
        } => open_for(scene, frames, drawers, row, limit, offset, reversed),
        Block::Tablerow {
            row,
            cols,
            limit,
            offset,
            ..
        } => open_table(scene, frames, drawers, row, cols, limit, offset),
        _ => Ok(Opened::Bare),
    }
}

/// Opens a `case`.
pub(crate) fn open_case<'a>(
    scene: Scene<'a>,
    frames: &Frames,
    drawers: &'a Drawers,
    target: Expr,
) -> Result<Opened<'a>, Fault>
    ensures { CaseOpened scene.entry frames.now (shows drawers.now) target result }
{
    let value = eval(scene, frames, drawers, target)?;
    Ok(Opened::Target(value))
}
