// What the open frames give to names: loop variables, loop objects and their fields.
use crate::fields::{common_field, table_field};
use crate::frame::Frame;
use crate::item::Item;
use crate::met::{Loop, Met};
use crate::stack::Frames;
use held::value::Value;
use tray::parts::same_text;

impl Frames {
    ghost use Rattle.std.specs.Prelude.{◌≡◌, ◌-◌, drop, length};
    ghost use Rattle.std.specs.Option.{option_map};
    ghost use Rattle.meaning.specs.Hosts.{Host};
    ghost use Rattle.meaning.specs.Frames.{bound, nearest_for, nearest_table, field, parent};
    ghost use Rattle.frames.specs.Items.{item_of};
    ghost use Rattle.frames.specs.Views.{around_in, loop_of, met_of};

    /// The item of the innermost loop with that variable.
    pub fn bound(&self, name: usize) -> Option<Item>
        ensures { (h : Host) → option_map (item_of h) result ≡ bound (around_in h self.now) name }
    {
        let mut k = self.depth;
        while k > 0 {
            k -= 1;
            let frame = &self.table[k];
            if frame.binds(name) {
                return Some(frame.item);
            }
        }
        None
    }

    // The object of the nearest `for` among the outermost `around` frames.
    fn for_within(&self, around: usize) -> Option<Loop>
        ensures { (h : Host) → option_map (loop_of (around_in h self.now)) result ≡ nearest_for (drop (length (around_in h self.now) - around) (around_in h self.now)) }
    {
        let mut k = self.depth.min(around);
        while k > 0 {
            k -= 1;
            let frame = &self.table[k];
            if let Some(object) = frame.for_object(k) {
                return Some(object);
            }
        }
        None
    }

    /// The object of the nearest `for`; tables are passed over.
    pub fn nearest_for(&self) -> Option<Loop>
        ensures { (h : Host) → option_map (loop_of (around_in h self.now)) result ≡ nearest_for (around_in h self.now) }
    {
        self.for_within(self.depth)
    }

    /// The object of the nearest table; `for`s are passed over.
    pub fn nearest_table(&self) -> Option<Loop>
        ensures { (h : Host) → option_map (loop_of (around_in h self.now)) result ≡ nearest_table (around_in h self.now) }
    {
        let mut k = self.depth;
        while k > 0 {
            k -= 1;
            let frame = &self.table[k];
            if let Some(object) = frame.table_object() {
                return Some(object);
            }
        }
        None
    }

    // The object of the nearest `for` among the outermost `around` frames, or nil.
    fn parent<'a>(&self, around: usize) -> Met<'a>
        ensures { (h : Host) → Some (met_of (around_in h self.now) result) ≡ parent (nearest_for (drop (length (around_in h self.now) - around) (around_in h self.now))) }
    {
        match self.for_within(around) {
            Some(object) => Met::Loop(object),
            None => Met::Value(Value::Nil),
        }
    }

    /// A field of a loop object.
    pub fn field<'a>(&self, of: Loop, key: &[u8]) -> Option<Met<'a>>
        ensures { (h : Host) → option_map (met_of (around_in h self.now)) result ≡ field (loop_of (around_in h self.now) of) key.now }
    {
        match of {
            Loop::For {
                count,
                index,
                around,
            } => common_field(count, index, key).or_else(|| {
                same_text(key, b"parentloop").then(|| self.parent(around))
            }),
            Loop::Table { count, index, cols } => {
                common_field(count, index, key).or_else(|| table_field(cols, count, index, key))
            }
        }
    }
}
