// Templates that are loaded.

/// A template: its nodes are those from `from` up to `end`.
#[derive(Clone, Copy, Debug, PartialEq, Eq)]
pub struct Template {
    pub from: usize,
    pub end: usize,
}
