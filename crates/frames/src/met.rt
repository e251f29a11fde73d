// What a path comes to.
use held::value::Value;

/// A loop object: that of the visit `index`, from 0, of `count`, of a `for` inside the outermost `around` frames, or of a table.
#[derive(Clone, Copy)]
pub enum Loop {
    For {
        count: u16,
        index: u16,
        around: usize,
    },
    Table {
        count: u16,
        index: u16,
        cols: i64,
    },
}

/// A value, or a loop object.
#[derive(Clone, Copy)]
pub enum Met<'a> {
    Value(Value<&'a [u8]>),
    Loop(Loop),
}
