// What an opening is to the arms of its block.
ghost use Rattle.std.specs.Prelude.{◌≡◌, ◌∷◌, [], length};
ghost use Rattle.frames.specs.declared.frame.Manner.TheVariants.{Each, Cells};
ghost use Rattle.frames.specs.declared.item.Item.TheVariants.{Nil};
ghost use Rattle.renderer.specs.Openings.{Counted, items_of};
ghost use Rattle.renderer.specs.Visiting.{shown_items, shown_cols, Visited, VisitsOf};

use crate::openings::Opened;
use frames::frame::Manner;
use frames::item::AnyRow;
use nodes::table::{Block, Guard};
use rows::window::Window;

/// How an arm is visited: in which manner, to what, and how often.
#[derive(Clone, Copy)]
pub(crate) struct Visits {
    pub(crate) manner: Manner,
    pub(crate) row: Window<AnyRow>,
    pub(crate) times: u16,
}

// One visit, to nil.
#[tactic(auto, unfolding(rows::specs::Windows::windowed))]
fn one_visit(manner: Manner) -> Visits
    ensures { Visited manner (Nil ∷ []) result }
{
    let (row, times) = AnyRow::Once.shown(None, None, false);
    Visits { manner, row, times }
}

// The window of a loop and the count of its items; any other opening has none.
#[tactic(auto, unfolding(rows::specs::Windows::windowed))]
fn window_in(opened: Opened) -> (Window<AnyRow>, u16)
    ensures { Counted opened.entry → (items_of result.0 ≡ shown_items opened.entry) × (result.1 ≡ length (shown_items opened.entry)) }
{
    match opened {
        Opened::Loop { window, times } => (window, times),
        Opened::Table { window, times, .. } => (window, times),
        _ => AnyRow::Nothing.shown(None, None, false),
    }
}

// The columns of a table.
fn cols_in(opened: Opened) -> i64
    ensures { result ≡ shown_cols opened.entry }
{
    match opened {
        Opened::Table { cols, .. } => cols,
        _ => 0,
    }
}

// The visits of a loop.
fn loop_visits(variable: usize, opened: Opened) -> Visits
    ensures { Counted opened.entry → Visited (Each variable (length (shown_items opened.entry))) (shown_items opened.entry) result }
{
    let (row, times) = window_in(opened);
    let manner = Manner::Each {
        variable,
        count: times,
    };
    Visits { manner, row, times }
}

// Those of a table.
fn table_visits(variable: usize, opened: Opened) -> Visits
    ensures { Counted opened.entry → Visited (Cells variable (length (shown_items opened.entry)) (shown_cols opened.entry)) (shown_items opened.entry) result }
{
    let (row, times) = window_in(opened);
    let manner = Manner::Cells {
        variable,
        count: times,
        cols: cols_in(opened),
    };
    Visits { manner, row, times }
}

/// The visits of an arm of the block that was opened so. An arm of a `case` is visited like one of an `if`.
pub(crate) fn arm_visits(block: Block, opened: Opened, guard: Guard) -> Visits
    ensures { Counted opened.entry → VisitsOf block opened.entry guard result }
{
    match block {
        Block::If => one_visit(Manner::Once),
        Block::For { variable, .. } => match guard {
            Guard::HasItems => loop_visits(variable, opened),
            _ => one_visit(Manner::Once),
        },
        Block::Tablerow { variable, .. } => table_visits(variable, opened),
        Block::Capture(target) => one_visit(Manner::Keeping(target)),
        Block::Ifchanged => one_visit(Manner::Watching),
    }
}
