// The nodes of a sheet, in the order of the source.
use crate::exprs::{Chain, Comparison, Expr, Part, Row, Span};

/// An element that holds no others. Targets and cycle names are numbers of the sheet, values entries of the table of values.
#[derive(Clone, Copy, Debug, PartialEq, Eq)]
pub enum Leaf {
    Plain(Part),
    Output(Chain),
    Assign(usize, Chain),
    Increment(usize),
    Decrement(usize),
    Cycle(usize, Span),
    Break,
    Continue,
}

/// A tag that holds elements, with its arguments; `If` is `unless` too.
#[derive(Clone, Copy, Debug, PartialEq, Eq)]
pub enum Block {
    If,
    For {
        variable: usize,
        row: Row,
        limit: Option<Expr>,
        offset: Option<Expr>,
        reversed: bool,
    },
    Tablerow {
        variable: usize,
        row: Row,
        cols: Option<Expr>,
        limit: Option<Expr>,
        offset: Option<Expr>,
    },
    Capture(usize),
    Ifchanged,
}

/// What decides about an arm. The tests of a condition stand behind the node of the arm, up to its body.
#[derive(Clone, Copy, Debug, PartialEq, Eq)]
pub enum Guard {
    Holds,
    Fails,
    Equals(Span),
    HasItems,
    Always,
}

/// What stands behind an arm: nothing more of the block, an arm with a node of its own, or the elements of an `else`.
#[derive(Clone, Copy, Debug, PartialEq, Eq)]
pub enum Next {
    Nothing,
    Arm,
    Else,
}

/// An arm of a block: its elements are the nodes from `body` up to `next`.
#[derive(Clone, Copy, Debug, PartialEq, Eq)]
pub struct Arm {
    pub guard: Guard,
    pub body: usize,
    pub next: usize,
    pub then: Next,
}

/// An element, with its place in the source; an `elsif` or `when`; a test of a condition, or what joins two of them.
/// A block ends before the node `end`. Only a `case` opens without an arm of its own.
#[derive(Clone, Copy, Debug, PartialEq, Eq)]
pub enum Node {
    Leaf {
        place: usize,
        leaf: Leaf,
    },
    Open {
        place: usize,
        block: Block,
        arm: Arm,
        end: usize,
    },
    Case {
        place: usize,
        target: Expr,
        then: Next,
        end: usize,
    },
    Arm(Arm),
    Exists(Expr),
    Compares(Expr, Comparison, Expr),
    And,
    Or,
}
