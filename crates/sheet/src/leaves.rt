// Elements without elements, and the names of tags.
ghost use Rattle.std.specs.Prelude.{◌≡◌};
ghost use Rattle.cutter.specs.Ahead.{ahead};
ghost use Rattle.nodes.specs.Exprs.{bytes_of};
ghost use Rattle.tree.specs.Elements.{plain};
ghost use Rattle.arguments.specs.Judging.{pure};
ghost use Rattle.arguments.specs.Tables.{pool_of, under, Said, Grown, Longer, Shown, Lies};
ghost use Rattle.tags.specs.Leaves.{output_of};
ghost use Rattle.tags.specs.Reading.{Leaves};
ghost use Rattle.sheet.specs.Names.{tag_name};
ghost use Rattle.sheet.specs.Blocks.{with_node, leaf_tag};
ghost use Rattle.sheet.specs.Opening.{nodes_in, Leafed};

use crate::names::Simple;
use arguments::reader::Reader;
use arguments::reader::words::bare_of;
use arguments::refusals::{Refusal, Stop};
use cutter::places::Placed;
use cutter::tokens::Word;
use nodes::exprs::Part;
use nodes::table::{Leaf, Node};
use tags::stdlib::output::parse_output;
use tags::stdlib::tags::increment_tags::{parse_decrement, parse_increment};
use tags::stdlib::tags::interrupt_tags::{parse_break, parse_continue};
use tags::stdlib::tags::{assign_tag, cycle_tag};

// The name of the tag that is read.
#[tactic(auto, using(arguments::proofs::Chaining::said_went, arguments::proofs::Chaining::refuses_went), unfolding(crate::specs::Names::tag_name))]
pub(crate) fn tag_name<'a>(reader: &mut Reader<'a>) -> Result<Word<'a>, Stop>
    ensures says { Said result (tag_name reader.old.mark (under reader.old)) (Shown reader.old.source.now) (under reader.new) }
    ensures grown { Grown reader.old reader.new }
{
    let mark = reader.mark;
    let Some(word) = reader.next_word()? else {
        return Err(Stop::Refused(Refusal::UnknownTag, mark));
    };
    if bare_of(word).is_none() {
        return Err(Stop::Refused(Refusal::UnknownTag, word.place));
    }
    Ok(word)
}

// The arguments of a tag without elements.
fn parse_simple(reader: &mut Reader<'_>, kind: Simple) -> Result<Leaf, Stop>
    ensures says { Said result (leaf_tag kind reader.old.mark (under reader.old)) (Leaves (pool_of reader.new)) (under reader.new) }
    ensures nodes { nodes_in reader.new ≡ nodes_in reader.old }
    ensures longer { Longer reader.old reader.new }
{
    match kind {
        Simple::Assign => assign_tag::parse(reader),
        Simple::Increment => parse_increment(reader),
        Simple::Decrement => parse_decrement(reader),
        Simple::Cycle => cycle_tag::parse(reader),
        Simple::Break => parse_break(reader),
        Simple::Continue => parse_continue(reader),
    }
}

// A text, which stands in the source.
pub(crate) fn read_text(reader: &mut Reader<'_>, text: Placed<'_>) -> Result<(), Stop>
    requires lies { Lies reader.old.source.now text.place text.bytes.now }
    ensures says { Said result (with_node text.entry.place (pure (plain text.entry.bytes.now)) (under reader.old)) (Leafed text.entry.place reader.old reader.new) (under reader.new) }
    ensures longer { Longer reader.old reader.new }
{
    let place = text.place;
    let leaf = Leaf::Plain(Part {
        place,
        len: text.bytes.len(),
    });
    reader.room(place)?;
    reader.push_node(Node::Leaf { place, leaf })?;
    Ok(())
}

// An output.
pub(crate) fn read_output(reader: &mut Reader<'_>) -> Result<(), Stop>
    ensures says { Said result (with_node reader.old.mark (output_of reader.old.mark) (under reader.old)) (Leafed reader.old.mark reader.old reader.new) (under reader.new) }
    ensures longer { Longer reader.old reader.new }
{
    let place = reader.mark;
    reader.room(place)?;
    let leaf = parse_output(reader)?;
    reader.push_node(Node::Leaf { place, leaf })?;
    Ok(())
}

// A tag without elements, whose name is read.
pub(crate) fn read_simple(reader: &mut Reader<'_>, kind: Simple) -> Result<(), Stop>
    ensures says { Said result (with_node reader.old.mark (leaf_tag kind reader.old.mark) (under reader.old)) (Leafed reader.old.mark reader.old reader.new) (under reader.new) }
    ensures longer { Longer reader.old reader.new }
{
    let place = reader.mark;
    reader.room(place)?;
    let leaf = parse_simple(reader, kind)?;
    reader.push_node(Node::Leaf { place, leaf })?;
    Ok(())
}
