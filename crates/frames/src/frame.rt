// Visits that are under way.
ghost use Rattle.std.specs.Prelude.{◌≡◌, ◌-◌, ◌≤◌, ℕ, List, Option, Some, cond, drop, length, take};
ghost use Rattle.std.specs.Option.{option_map, option_or};
ghost use Rattle.meaning.specs.Things.{Held};
ghost use Rattle.meaning.specs.Frames.{Frames, LoopObject, binding, for_at, table_at};
ghost use Rattle.frames.specs.Cuts.{trimmed};
ghost use Rattle.frames.specs.Trails.{record_for};
ghost use Rattle.frames.specs.Views.{manner_of, loop_of};

use crate::item::{AnyRow, Item};
use crate::met::Loop;
use rows::window::Window;

/// How the arm of a block that was taken is visited: once; for each item; as cells of a table; with its text kept as a variable; with its text shown where it has changed.
#[derive(Clone, Copy)]
pub enum Manner {
    Once,
    Each {
        variable: usize,
        count: u16,
    },
    Cells {
        variable: usize,
        count: u16,
        cols: i64,
    },
    Keeping(usize),
    Watching,
}

/// A visit that is under way: the place of its block, its number from 1 (0 before the first), and the item;
/// and for the way on: how many visits there are, and to what; the nodes of the arm's elements, the node behind the block,
/// the end of the list in which the block stands, and how many bytes stood in the buffer before.
#[derive(Clone, Copy)]
pub struct Frame {
    pub place: usize,
    pub manner: Manner,
    pub visit: u16,
    pub item: Item,
    pub times: u16,
    pub row: Window<AnyRow>,
    pub body: usize,
    pub end: usize,
    pub next: usize,
    pub outer: usize,
    pub mark: usize,
}

impl Frame {
    /// How many of the bytes that are written stay where the block is left by a fault.
    pub(crate) fn trimmed(&self, filled: usize) -> usize
        ensures within { result ≤ filled }
        ensures cut { (out : List ℕ) → filled ≤ length out → take result out ≡ trimmed self.now.manner self.now.mark (take filled out) }
    {
        match self.manner {
            Manner::Keeping(_) | Manner::Watching => self.mark.min(filled),
            Manner::Once | Manner::Each { .. } | Manner::Cells { .. } => filled,
        }
    }

    /// Its record in the trail of a fault; only the visits of loops are counted.
    pub(crate) fn trail_record(&self) -> TrailRecord
        ensures { result ≡ record_for self.now }
    {
        let visit = match self.manner {
            Manner::Each { .. } | Manner::Cells { .. } => self.visit,
            Manner::Once | Manner::Keeping(_) | Manner::Watching => 0,
        };
        TrailRecord::Stands {
            place: self.place,
            visit,
        }
    }

    /// The index of the visit, from 0.
    pub fn index(&self) -> u16
        ensures { result ≡ self.now.visit - 1 }
    {
        self.visit.saturating_sub(1)
    }

    /// Whether it binds the variable to its item.
    pub(crate) fn binds(&self, name: usize) -> bool
        ensures { (x : Held) (outer : Option Held) → binding (manner_of self.now.manner) x name outer ≡ cond result (Some x) outer }
    {
        match self.manner {
            Manner::Each { variable, .. } | Manner::Cells { variable, .. } => variable == name,
            Manner::Once | Manner::Keeping(_) | Manner::Watching => false,
        }
    }

    /// Its loop object, where it is of a `for` that has `around` frames around it.
    pub(crate) fn for_object(&self, around: usize) -> Option<Loop>
        ensures { (fs : Frames) (outer : Option LoopObject) → for_at (manner_of self.now.manner) (self.now.visit - 1) (drop (length fs - around) fs) outer ≡ option_or (option_map (loop_of fs) result) outer }
    {
        match self.manner {
            Manner::Each { count, .. } => Some(Loop::For {
                count,
                index: self.index(),
                around,
            }),
            _ => None,
        }
    }

    /// Its loop object, where it is of a table.
    pub(crate) fn table_object(&self) -> Option<Loop>
        ensures { (fs : Frames) (outer : Option LoopObject) → table_at (manner_of self.now.manner) (self.now.visit - 1) outer ≡ option_or (option_map (loop_of fs) result) outer }
    {
        match self.manner {
            Manner::Cells { count, cols, .. } => Some(Loop::Table {
                count,
                index: self.index(),
                cols,
            }),
            _ => None,
        }
    }
}

/// A record of a fault's trail: blank, or the place of a block and the number of a visit, 0 outside a loop's visits.
#[derive(Clone, Copy)]
pub enum TrailRecord {
    Blank,
    Stands { place: usize, visit: u16 },
}
