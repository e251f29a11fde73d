// Templates of one source text, ready to be rendered.
ghost use Rattle.std.specs.Prelude.{◌≡◌, true, is_some, vec_items};
ghost use Rattle.arguments.specs.Tables.{pool_of, lists_of};
ghost use Rattle.sheet.specs.GrammarLaws.{env_of, Apart};
ghost use Rattle.sheet.specs.Templates.{trees_in};

use crate::parser::Parser;
use crate::templates::Template;

/// The tables that its templates are read into, and the nodes of each template. No two names are equal, and no two cycle names; and every template decodes into a tree.
#[derive(Debug, PartialEq, Eq, Drop)]
pub struct Sheet<'a> {
    pub(crate) parser: Parser<'a>,
    pub(crate) templates: Vec<Template>,
    ghost apart: { Apart (env_of (lists_of parser.reader)) },
    ghost decode: { is_some (trees_in (pool_of parser.reader) (vec_items parser.reader.nodes) (vec_items templates)) ≡ true },
}
