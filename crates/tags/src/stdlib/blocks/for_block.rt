// The arguments of `for` and `tablerow`.
ghost use Rattle.std.specs.Prelude.{◌≡◌, Some};
ghost use Rattle.nodes.specs.Exprs.{Pool};
ghost use Rattle.nodes.specs.Trees.{block_of};
ghost use Rattle.nodes.specs.declared.table.Block.TheVariants as block;
ghost use Rattle.arguments.specs.Judging.{seen};
ghost use Rattle.arguments.specs.Values.{read, bare};
ghost use Rattle.arguments.specs.Tables.{pool_of, under, Said, Grown};
ghost use Rattle.arguments.specs.Reading.{Exprs};
ghost use Rattle.tags.specs.Loops.{Attributes as the_attributes, Header as the_header, own, attribute_named, attribute_of, setting, with_attribute, attributes, header, for_of, tablerow_of};
ghost use Rattle.tags.specs.Reading.{Settings, Headers};

use arguments::reader::Reader;
use arguments::reader::words::bare_of;
use arguments::refusals::{Refusal, Stop};
use cutter::lengths::Symbol;
use cutter::tokens::Word;
use nodes::exprs::{Expr, Row};
use nodes::table::Block;
use tray::parts::same_text;

/// The two loops, which differ in the attributes that they take.
#[derive(Clone, Copy, Debug, PartialEq, Eq)]
pub enum Loop {
    For,
    Tablerow,
}

/// What may stand behind the row of a loop.
#[derive(Clone, Copy, Debug, PartialEq, Eq)]
pub enum Attribute {
    Cols,
    Limit,
    Offset,
    Reversed,
}

/// What stands behind the row of a loop; of an attribute that stands twice, the last counts.
#[derive(Clone, Copy, Debug, PartialEq, Eq)]
pub struct Attributes {
    pub cols: Option<Expr>,
    pub limit: Option<Expr>,
    pub offset: Option<Expr>,
    pub reversed: bool,
}

/// The arguments of a loop.
#[derive(Clone, Copy, Debug, PartialEq, Eq)]
pub struct Header {
    pub variable: usize,
    pub row: Row,
    pub attributes: Attributes,
}

// The attribute with this name that is the loop's own.
fn own(which: Loop, name: &[u8]) -> Option<Attribute>
    ensures { result ≡ own which name.now }
{
    match which {
        Loop::For => same_text(name, b"reversed").then_some(Attribute::Reversed),
        Loop::Tablerow => same_text(name, b"cols").then_some(Attribute::Cols),
    }
}

fn attribute_named(which: Loop, name: &[u8]) -> Option<Attribute>
    ensures { result ≡ attribute_named which name.now }
{
    if same_text(name, b"limit") {
        return Some(Attribute::Limit);
    }
    if same_text(name, b"offset") {
        return Some(Attribute::Offset);
    }
    own(which, name)
}

// The attribute that a token names.
fn attribute_of(which: Loop, word: Word) -> Option<Attribute>
    ensures { result ≡ attribute_of which (bare (read (seen word.entry.place word.entry.bytes.now))) }
{
    attribute_named(which, bare_of(word)?)
}

// A colon, and a value.
#[tactic(auto, using(arguments::proofs::Chaining::said_went, arguments::proofs::Chaining::refuses_went, arguments::proofs::Chaining::grown_then), unfolding(crate::specs::Loops::setting))]
fn setting(reader: &mut Reader<'_>) -> Result<Expr, Stop>
    ensures says { Said result (setting reader.old.mark (under reader.old)) (Exprs (pool_of reader.new)) (under reader.new) }
    ensures grown { Grown reader.old reader.new }
{
    reader.expect_symbol(Symbol::Colon)?;
    reader.value()
}

// The attributes with one more.
fn with_attribute(
    reader: &mut Reader<'_>,
    attributes: Attributes,
    attribute: Attribute,
) -> Result<Attributes, Stop>
    ensures says { (y : the_attributes) → Settings (pool_of reader.old) attributes y → Said result (with_attribute reader.old.mark y attribute (under reader.old)) (Settings (pool_of reader.new)) (under reader.new) }
    ensures grown { Grown reader.old reader.new }
{
    Ok(match attribute {
        Attribute::Cols => Attributes {
            cols: Some(setting(reader)?),
            ..attributes
        },
        Attribute::Limit => Attributes {
            limit: Some(setting(reader)?),
            ..attributes
        },
        Attribute::Offset => Attributes {
            offset: Some(setting(reader)?),
            ..attributes
        },
        Attribute::Reversed => Attributes {
            reversed: true,
            ..attributes
        },
    })
}

// The attributes up to the end of the mark.
fn parse_attributes(reader: &mut Reader<'_>, which: Loop) -> Result<Attributes, Stop>
    ensures says { Said result (attributes which reader.old.mark (under reader.old)) (Settings (pool_of reader.new)) (under reader.new) }
    ensures grown { Grown reader.old reader.new }
{
    let mut attributes = Attributes {
        cols: None,
        limit: None,
        offset: None,
        reversed: false,
    };
    while let Some(word) = reader.next_word()? {
        let attribute = attribute_of(which, word).ok_or(Stop::Refused(
            Refusal::Argument,
            word.place,
        ))?;
        attributes = with_attribute(reader, attributes, attribute)?;
    }
    Ok(attributes)
}

/// `variable in row attributes`
#[tactic(auto, using(arguments::proofs::Chaining::said_went, arguments::proofs::Chaining::refuses_went, arguments::proofs::Chaining::grown_then), unfolding(crate::specs::Loops::header))]
pub fn parse_header(reader: &mut Reader<'_>, which: Loop) -> Result<Header, Stop>
    ensures says { Said result (header which reader.old.mark (under reader.old)) (Headers (pool_of reader.new)) (under reader.new) }
    ensures grown { Grown reader.old reader.new }
{
    let variable = reader.target()?;
    reader.expect_word(b"in")?;
    let row = reader.row()?;
    let attributes = parse_attributes(reader, which)?;
    Ok(Header {
        variable,
        row,
        attributes,
    })
}

/// The block of a `for`, which takes no `cols`.
pub fn for_of(header: Header) -> Block
    ensures is { result ≡ block.For header.variable header.row header.attributes.limit header.attributes.offset header.attributes.reversed }
    ensures stands { (b : Pool) (y : the_header) → Headers b header y → block_of b result ≡ Some (for_of y) }
{
    let Header {
        variable,
        row,
        attributes,
    } = header;
    Block::For {
        variable,
        row,
        limit: attributes.limit,
        offset: attributes.offset,
        reversed: attributes.reversed,
    }
}

/// The block of a `tablerow`, which is never reversed.
pub fn tablerow_of(header: Header) -> Block
    ensures is { result ≡ block.Tablerow header.variable header.row header.attributes.cols header.attributes.limit header.attributes.offset }
    ensures stands { (b : Pool) (y : the_header) → Headers b header y → block_of b result ≡ Some (tablerow_of y) }
{
    let Header {
        variable,
        row,
        attributes,
    } = header;
    Block::Tablerow {
        variable,
        row,
        cols: attributes.cols,
        limit: attributes.limit,
        offset: attributes.offset,
    }
}
