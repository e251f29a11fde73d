// How blocks open, and what follows behind their elements.
ghost use Rattle.std.specs.Prelude.{◌≡◌, ◌+◌, OnOk};
ghost use Rattle.arguments.specs.Tables.{under, Said, Grown, Longer, Is};
ghost use Rattle.arguments.specs.declared.refusals.Stop.TheVariants.{Refused};
ghost use Rattle.arguments.specs.declared.refusals.Refusal.TheVariants.{UnknownTag};
ghost use Rattle.sheet.specs.Blocks.{held, behind_node, ended, bare_else, closed, only_end, following, opened, follows, closes};
ghost use Rattle.sheet.specs.Opening.{long, tag_of, OpensIn, Opens, Follows};

use crate::names::{Block, Closer, closer_of};
use crate::stdlib::blocks::capture_block::open_capture;
use crate::stdlib::blocks::case_block::{after_case, open_case};
use crate::stdlib::blocks::for_block::{after_for, open_for, open_tablerow};
use crate::stdlib::blocks::if_block::{after_if, open_if, open_unless};
use crate::stdlib::blocks::ifchanged_block::open_ifchanged;
use arguments::reader::Reader;
use arguments::refusals::{Refusal, Stop};
use cutter::tokens::Word;
use nodes::exprs::Expr;
use nodes::table;
use nodes::table::{Guard, Node};

/// A block that opens: with the guard of its first arm, or a `case` with its target.
#[derive(Clone, Copy)]
pub(crate) enum Opened {
    Arm(table::Block, Guard),
    Case(Expr),
}

/// What follows behind elements of a block: its end, an `else`, or another arm with its guard.
#[derive(Clone, Copy)]
pub(crate) enum Following {
    End,
    Else,
    Arm(Guard),
}

// Room for the node of the mark that is read, and the node, which is set later.
#[tactic(auto, using(arguments::proofs::Chaining::said_went, arguments::proofs::Chaining::refuses_went), unfolding(crate::specs::Blocks::held))]
pub(crate) fn hold(reader: &mut Reader<'_>) -> Result<(), Stop>
    ensures says { Said result (held reader.old.mark (under reader.old)) Is (under reader.new) }
    ensures pushed { OnOk result (long reader.new ≡ long reader.old + 1) }
    ensures longer { Longer reader.old reader.new }
{
    let mark = reader.mark;
    reader.room(mark)?;
    reader.push_node(Node::And)
}

// A tag that is not known here.
pub(crate) fn unknown(tag: Word) -> Stop
    ensures { result ≡ Refused UnknownTag tag.entry.place }
{
    Stop::Refused(Refusal::UnknownTag, tag.place)
}

// The end of the block, if nothing is left over.
#[tactic(auto, using(arguments::proofs::Chaining::said_went, arguments::proofs::Chaining::refuses_went))]
pub(crate) fn ended(reader: &mut Reader<'_>) -> Result<Following, Stop>
    ensures says { Said result (ended (under reader.old)) (Follows reader.old reader.new) (under reader.new) }
    ensures longer { Longer reader.old reader.new }
{
    reader.finish()?;
    Ok(Following::End)
}

// An `else`, if nothing is left over.
#[tactic(auto, using(arguments::proofs::Chaining::said_went, arguments::proofs::Chaining::refuses_went))]
pub(crate) fn bare_else(reader: &mut Reader<'_>) -> Result<Following, Stop>
    ensures says { Said result (bare_else (under reader.old)) (Follows reader.old reader.new) (under reader.new) }
    ensures longer { Longer reader.old reader.new }
{
    reader.finish()?;
    Ok(Following::Else)
}

// The arguments of a tag that opens a block.
fn open_block(reader: &mut Reader<'_>, kind: Block) -> Result<Opened, Stop>
    ensures says { Said result (opened kind reader.old.mark (under reader.old)) (OpensIn reader.old reader.new) (under reader.new) }
    ensures longer { Longer reader.old reader.new }
{
    match kind {
        Block::If => open_if(reader),
        Block::Unless => open_unless(reader),
        Block::Case => open_case(reader),
        Block::For => open_for(reader),
        Block::Tablerow => open_tablerow(reader),
        Block::Capture => open_capture(reader),
        Block::Ifchanged => open_ifchanged(reader),
    }
}

// The node of a block, which is set later, and the arguments of its tag.
pub(crate) fn open_held(reader: &mut Reader<'_>, kind: Block) -> Result<Opened, Stop>
    ensures says { Said result (behind_node reader.old.mark (opened kind reader.old.mark) (under reader.old)) (Opens reader.old reader.new) (under reader.new) }
    ensures longer { Longer reader.old reader.new }
{
    hold(reader)?;
    open_block(reader, kind)
}

// The end tag, if nothing is left over.
fn closed(reader: &mut Reader<'_>, tag: Word, closer: Closer) -> Result<(), Stop>
    ensures says { Said result (closed (tag_of reader.old tag.entry) closer (under reader.old)) Is (under reader.new) }
    ensures grown { Grown reader.old reader.new }
{
    match closer {
        Closer::End => reader.finish(),
        _ => Err(unknown(tag)),
    }
}

// Nothing but the end tag.
#[tactic(auto, using(arguments::proofs::Chaining::said_went, arguments::proofs::Chaining::refuses_went, arguments::proofs::Chaining::grown_longer))]
fn only_end(reader: &mut Reader<'_>, tag: Word, closer: Closer) -> Result<Following, Stop>
    ensures says { Said result (only_end (tag_of reader.old tag.entry) closer (under reader.old)) (Follows reader.old reader.new) (under reader.new) }
    ensures longer { Longer reader.old reader.new }
{
    closed(reader, tag, closer)?;
    Ok(Following::End)
}

// What a tag behind elements of a block is to it.
fn follow_as(
    reader: &mut Reader<'_>,
    kind: Block,
    tag: Word,
    closer: Closer,
) -> Result<Following, Stop>
    ensures says { Said result (following kind (tag_of reader.old tag.entry) closer (under reader.old)) (Follows reader.old reader.new) (under reader.new) }
    ensures longer { Longer reader.old reader.new }
{
    match kind {
        Block::If | Block::Unless => after_if(reader, tag, closer),
        Block::Case => after_case(reader, tag, closer),
        Block::For => after_for(reader, tag, closer),
        Block::Tablerow | Block::Capture | Block::Ifchanged => only_end(reader, tag, closer),
    }
}

// The tag that ended elements of a block.
#[tactic(auto, unfolding(crate::specs::Blocks::follows))]
pub(crate) fn follows(reader: &mut Reader<'_>, kind: Block, tag: Word) -> Result<Following, Stop>
    ensures says { Said result (follows kind (tag_of reader.old tag.entry) (under reader.old)) (Follows reader.old reader.new) (under reader.new) }
    ensures longer { Longer reader.old reader.new }
{
    follow_as(reader, kind, tag, closer_of(kind.end_tag(), tag.bytes))
}

// The tag that ends a block.
#[tactic(auto, unfolding(crate::specs::Blocks::closes))]
pub(crate) fn closes(reader: &mut Reader<'_>, kind: Block, tag: Word) -> Result<(), Stop>
    ensures says { Said result (closes kind (tag_of reader.old tag.entry) (under reader.old)) Is (under reader.new) }
    ensures grown { Grown reader.old reader.new }
{
    closed(reader, tag, closer_of(kind.end_tag(), tag.bytes))
}
