// The tables of a sheet as a rendering reads them.
ghost use Rattle.std.specs.Prelude.{◌≡◌, take, drop};

use crate::exprs::{Expr, Filter, Part, Span, Step};
use crate::table::Node;

/// The source text, the names of the sheet as parts of it, how many cycle names there are, and the tables.
#[derive(Clone, Copy)]
pub struct Book<'a> {
    pub source: &'a [u8],
    pub names: &'a [Part],
    pub cycles: usize,
    pub steps: &'a [Step],
    pub values: &'a [Expr],
    pub filters: &'a [Filter],
    pub nodes: &'a [Node],
}

/// The entries of a span of a table; what lies past its end is left out.
pub fn entries<T>(table: &[T], span: Span) -> &[T]
    ensures { result.now ≡ take span.count (drop span.from table.now) }
{
    let rest = table.get(span.from..).unwrap_or(&[]);
    rest.get(..span.count).unwrap_or(rest)
}
