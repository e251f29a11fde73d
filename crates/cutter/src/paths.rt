// The steps of a path.
use crate::places::{Anchored, Placed};

pub mod walk;

/// A step of a path: an index, or a key with its place.
#[derive(Clone, Copy, Debug, PartialEq, Eq)]
pub enum StepWord<'a> {
    Index(i64),
    Key(Placed<'a>),
}

/// The steps in some bytes as written, taken up to a place among them.
#[derive(Clone, Copy, Debug, PartialEq, Eq)]
pub struct Steps<'a> {
    rest: Anchored<'a>,
}
