// What each thing has, and how it is changed.
ghost use Rattle.std.specs.Prelude.{◌≡◌, ◌<◌, ◌≤◌, length, IfOk, IsTrue, false, nat_le};
ghost use Rattle.std.specs.Option.{option_map};
ghost use Rattle.drawers.specs.Shown.{held_of, shows};
ghost use Rattle.meaning.specs.Things.{name, cycle_name, changed as changed_text, unset, altered, with_variable, with_counter, with_position, with_shown};

use crate::drawer::Drawer;
use crate::kept::Kept;
use crate::things::Drawers;
use arrayvec::ArrayVec;
use std::alloc::{AllocError, Global};

// How many names, and how many cycle names, a sheet can have.
const NAMES: usize = 128;

const CYCLE_NAMES: usize = 32;

impl Drawers {
    /// Drawers with nothing in them.
    pub fn new(heap: Global) -> Result<Drawers, AllocError>
        ensures { IfOk result (λ d. shows d ≡ unset) }
    {
        Ok(Drawers {
            variables: Drawer::new(heap, NAMES)?,
            counters: Drawer::new(heap, NAMES)?,
            positions: Drawer::new(heap, CYCLE_NAMES)?,
            changed: ArrayVec::new(),
        })
    }

    /// The variable of a name.
    pub fn variable(&self, n: usize) -> Option<&Kept>
        ensures { option_map (λ x. held_of x.now) result ≡ (shows self.now (name n)).variable }
    {
        self.variables.get(n)
    }

    /// The counter of a name.
    pub fn counter(&self, n: usize) -> Option<i64>
        ensures { result ≡ (shows self.now (name n)).counter }
    {
        self.counters.get(n).copied()
    }

    /// The position of a cycle name.
    pub fn position(&self, n: usize) -> usize
        ensures { result ≡ (shows self.now (cycle_name n)).position }
    {
        self.positions.get(n).copied().unwrap_or(0)
    }

    /// The changed text.
    pub fn changed(&self) -> &[u8]
        ensures { result.now ≡ (shows self.now changed_text).shown }
    {
        self.changed.as_slice()
    }

    /// Sets the variable of a name; past the last name nothing changes.
    pub fn set_variable(&mut self, n: usize, value: Kept)
        ensures set { n < 128 → shows self.new ≡ altered (name n) (with_variable (held_of value)) (shows self.old) }
        ensures past { 128 ≤ n → shows self.new ≡ shows self.old }
    {
        self.variables.set(n, value);
    }

    /// Sets the counter of a name; past the last name nothing changes.
    pub fn set_counter(&mut self, n: usize, count: i64)
        ensures set { n < 128 → shows self.new ≡ altered (name n) (with_counter count) (shows self.old) }
        ensures past { 128 ≤ n → shows self.new ≡ shows self.old }
    {
        self.counters.set(n, count);
    }

    /// Sets the position of a cycle name; past the last cycle name nothing changes.
    pub fn set_position(&mut self, n: usize, position: usize)
        ensures set { n < 32 → shows self.new ≡ altered (cycle_name n) (with_position position) (shows self.old) }
        ensures past { 32 ≤ n → shows self.new ≡ shows self.old }
    {
        self.positions.set(n, position);
    }

    /// Sets the changed text, where it has at most 1,024 bytes; else nothing changes.
    pub fn set_changed(&mut self, text: &[u8]) -> bool
        ensures fits { result ≡ nat_le (length text.now) 1024 }
        ensures set { IsTrue result → shows self.new ≡ altered changed_text (with_shown text.now) (shows self.old) }
        ensures same { result ≡ false → shows self.new ≡ shows self.old }
    {
        let mut changed = ArrayVec::new();
        if changed.try_extend_from_slice(text).is_err() {
            return false;
        }
        self.changed = changed;
        true
    }
}
