// The tables of a sheet, and the mark that is read into them.
ghost use Rattle.std.specs.Prelude.{◌≡◌, ◌≤◌, true, vec_len};
ghost use Rattle.cutter.specs.Ahead.{ahead};
ghost use Rattle.arguments.specs.Standing.{standing};

use crate::reader::names::NameBytes;
use cutter::tokens::Cursor;
use nodes::exprs::{Expr, Filter, Part, Step};
use nodes::table::Node;

pub mod chains;
pub mod entries;
pub mod lengths;
pub mod lists;
pub mod marks;
pub mod names;
pub mod values;
pub mod words;

/// A cycle name of at most 128 bytes: given in the tag, or made of its values.
#[derive(Clone, Copy, Debug, PartialEq, Eq)]
pub enum CycleName {
    Given(NameBytes),
    Made(NameBytes),
}

/// The source and the tables that it is read into; and the tokens of the mark at `mark` that are ahead.
// `Grown` and `Lies` stand in many contracts and in no type: they are of two states of a reader, or of a reader and bytes.
#[derive(Debug, PartialEq, Eq, Drop)]
pub struct Reader<'a> {
    pub source: &'a [u8],
    pub names: Vec<Part>,
    pub cycles: Vec<CycleName>,
    pub steps: Vec<Step>,
    pub values: Vec<Expr>,
    pub filters: Vec<Filter>,
    pub nodes: Vec<Node>,
    pub cursor: Cursor<'a>,
    pub mark: usize,
    ghost few_names: { vec_len names ≤ 128 },
    ghost few_cycles: { vec_len cycles ≤ 32 },
    ghost stands: { standing source.now (ahead cursor) ≡ true },
}
