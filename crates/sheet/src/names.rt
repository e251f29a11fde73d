// The names of tags.
// Chains of tests, and no `match` on texts: a match on so many is not proved.
ghost use Rattle.std.specs.Prelude.{◌≡◌};
ghost use Rattle.sheet.specs.Names.{end_tag, simple_as, block_as, known_as, closer};

use tray::parts::same_text;

/// The tags that hold no elements.
#[derive(Clone, Copy)]
pub(crate) enum Simple {
    Assign,
    Increment,
    Decrement,
    Cycle,
    Break,
    Continue,
}

/// The tags that hold elements.
#[derive(Clone, Copy)]
pub(crate) enum Block {
    If,
    Unless,
    Case,
    For,
    Tablerow,
    Capture,
    Ifchanged,
}

/// The tags that begin an element.
#[derive(Clone, Copy)]
pub(crate) enum Known {
    Simple(Simple),
    Block(Block),
}

/// What a tag that begins no element may be to the block around it: its end tag, or a tag between its arms.
#[derive(Clone, Copy)]
pub(crate) enum Closer {
    End,
    Else,
    Elsif,
    When,
    Other,
}

impl Block {
    /// The name of its end tag.
    pub(crate) fn end_tag(self) -> &'static [u8]
        ensures { result.now ≡ end_tag self }
    {
        match self {
            Block::If => b"endif",
            Block::Unless => b"endunless",
            Block::Case => b"endcase",
            Block::For => b"endfor",
            Block::Tablerow => b"endtablerow",
            Block::Capture => b"endcapture",
            Block::Ifchanged => b"endifchanged",
        }
    }
}

fn simple_as(name: &[u8]) -> Option<Simple>
    ensures { result ≡ simple_as name.now }
{
    if same_text(name, b"assign") {
        return Some(Simple::Assign);
    }
    if same_text(name, b"increment") {
        return Some(Simple::Increment);
    }
    if same_text(name, b"decrement") {
        return Some(Simple::Decrement);
    }
    if same_text(name, b"cycle") {
        return Some(Simple::Cycle);
    }
    if same_text(name, b"break") {
        return Some(Simple::Break);
    }
    if same_text(name, b"continue") {
        return Some(Simple::Continue);
    }
    None
}

fn block_as(name: &[u8]) -> Option<Block>
    ensures { result ≡ block_as name.now }
{
    if same_text(name, b"if") {
        return Some(Block::If);
    }
    if same_text(name, b"unless") {
        return Some(Block::Unless);
    }
    if same_text(name, b"case") {
        return Some(Block::Case);
    }
    if same_text(name, b"for") {
        return Some(Block::For);
    }
    if same_text(name, b"tablerow") {
        return Some(Block::Tablerow);
    }
    if same_text(name, b"capture") {
        return Some(Block::Capture);
    }
    if same_text(name, b"ifchanged") {
        return Some(Block::Ifchanged);
    }
    None
}

/// The tag of this name, if it begins an element.
pub(crate) fn known_as(name: &[u8]) -> Option<Known>
    ensures { result ≡ known_as name.now }
{
    match simple_as(name) {
        Some(simple) => Some(Known::Simple(simple)),
        None => block_as(name).map(Known::Block),
    }
}

/// What the tag of this name is to a block whose end tag is `end`.
pub(crate) fn closer_of(end: &[u8], name: &[u8]) -> Closer
    ensures { result ≡ closer end.now name.now }
{
    if same_text(name, end) {
        return Closer::End;
    }
    if same_text(name, b"else") {
        return Closer::Else;
    }
    if same_text(name, b"elsif") {
        return Closer::Elsif;
    }
    if same_text(name, b"when") {
        return Closer::When;
    }
    Closer::Other
}
