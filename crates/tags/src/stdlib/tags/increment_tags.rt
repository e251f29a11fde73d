// The arguments of `increment` and `decrement`.
ghost use Rattle.arguments.specs.Tables.{pool_of, under, Said, Grown};
ghost use Rattle.tags.specs.Leaves.{increment_tag, decrement_tag};
ghost use Rattle.tags.specs.Reading.{Leaves};

use crate::stdlib::blocks::capture_block::parse_target;
use arguments::reader::Reader;
use arguments::refusals::Stop;
use nodes::table::Leaf;

/// `increment target`
#[tactic(auto, using(arguments::proofs::Chaining::said_went, arguments::proofs::Chaining::refuses_went), unfolding(crate::specs::Leaves::increment_tag))]
pub fn parse_increment(reader: &mut Reader<'_>) -> Result<Leaf, Stop>
    ensures says { Said result (increment_tag reader.old.mark (under reader.old)) (Leaves (pool_of reader.new)) (under reader.new) }
    ensures grown { Grown reader.old reader.new }
{
    Ok(Leaf::Increment(parse_target(reader)?))
}

/// `decrement target`
#[tactic(auto, using(arguments::proofs::Chaining::said_went, arguments::proofs::Chaining::refuses_went), unfolding(crate::specs::Leaves::decrement_tag))]
pub fn parse_decrement(reader: &mut Reader<'_>) -> Result<Leaf, Stop>
    ensures says { Said result (decrement_tag reader.old.mark (under reader.old)) (Leaves (pool_of reader.new)) (under reader.new) }
    ensures grown { Grown reader.old reader.new }
{
    Ok(Leaf::Decrement(parse_target(reader)?))
}
