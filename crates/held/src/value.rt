// Values while a ticket is rendered.

/// A value, with its text as a `T`. An array or an object is the number of its record in the tray, a pair that of its key's record.
#[derive(Clone, Copy)]
pub enum Value<T> {
    Nil,
    Boolean(bool),
    Whole(i64),
    Text(T),
    Array(usize),
    Object(usize),
    Pair(usize),
}
