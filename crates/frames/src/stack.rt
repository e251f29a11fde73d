// The frame table.
ghost use Rattle.std.specs.Prelude.{◌≤◌};

mod cut;
mod looking;
mod trails;

use crate::frame::{Frame, Manner};
use crate::item::{AnyRow, Item};
use rows::window::Window;

/// The frames around an element: of a table of sixteen, the first `depth`, the outermost first.
#[derive(Drop)]
pub struct Frames {
    table: [Frame; 16],
    depth: usize,
    ghost few: { depth ≤ 16 },
}

impl Frames {
    ghost use Rattle.std.specs.Prelude.{◌≡◌, ◌<◌, [], ◌∷◌, drop, length, take};
    ghost use Rattle.std.specs.List.{slice_get};
    ghost use Rattle.frames.specs.Views.{open_in};
    ghost use Rattle.frames.specs.Visits.{next_visited, goes_on};

    /// No open frame.
    pub fn new() -> Frames
        ensures { open_in result ≡ [] }
    {
        let unused = Frame {
            place: 0,
            manner: Manner::Once,
            visit: 0,
            item: Item::Nil,
            times: 0,
            row: Window::new(AnyRow::Once, None, None, false),
            body: 0,
            end: 0,
            next: 0,
            outer: 0,
            mark: 0,
        };
        Frames {
            table: [unused; 16],
            depth: 0,
        }
    }

    // The outermost first.
    fn open_frames(&self) -> &[Frame]
        ensures { result.now ≡ take self.now.depth self.now.table }
    {
        &self.table[..self.depth]
    }

    /// How many frames are open.
    pub fn depth(&self) -> usize
        ensures { result ≡ length (open_in self.now) }
    {
        self.open_frames().len()
    }

    /// The innermost open frame.
    pub fn top(&self) -> Option<Frame>
        ensures { result ≡ slice_get (open_in self.now) 0 }
    {
        self.open_frames().last().copied()
    }

    /// Opens a frame inside the others, where fewer than sixteen are open.
    pub fn open(&mut self, frame: Frame)
        ensures opened { length (open_in self.old) < 16 → open_in self.new ≡ frame ∷ open_in self.old }
        ensures full { 16 ≤ length (open_in self.old) → self.new ≡ self.old }
    {
        if self.depth < self.table.len() {
            self.table[self.depth] = frame;
            self.depth += 1;
        }
    }

    /// Closes the innermost frame, where one is open.
    pub fn close(&mut self)
        ensures { open_in self.new ≡ drop 1 (open_in self.old) }
    {
        self.depth = self.depth.saturating_sub(1);
    }

    /// Takes the innermost frame to its next visit, to an item, where one is left, and tells whether one was.
    pub fn next_visit(&mut self, item: Item) -> bool
        ensures frames { open_in self.new ≡ next_visited item (open_in self.old) }
        ensures left { result ≡ goes_on (open_in self.old) }
    {
        let Some(last) = self.depth.checked_sub(1) else {
            return false;
        };
        let frame = &mut self.table[last];
        if frame.visit >= frame.times {
            return false;
        }
        frame.visit += 1;
        frame.item = item;
        true
    }
}
