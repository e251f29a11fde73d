// `break` and `continue`, which take no arguments.
ghost use Rattle.arguments.specs.Tables.{pool_of, under, Said, Grown};
ghost use Rattle.tags.specs.Leaves.{break_tag, continue_tag};
ghost use Rattle.tags.specs.Reading.{Leaves};

use arguments::reader::Reader;
use arguments::refusals::Stop;
use nodes::table::Leaf;

/// `break`
#[tactic(auto, using(arguments::proofs::Chaining::said_went, arguments::proofs::Chaining::refuses_went), unfolding(crate::specs::Leaves::break_tag, nodes::specs::Trees::leaf_of))]
pub fn parse_break(reader: &mut Reader<'_>) -> Result<Leaf, Stop>
    ensures says { Said result (break_tag (under reader.old)) (Leaves (pool_of reader.new)) (under reader.new) }
    ensures grown { Grown reader.old reader.new }
{
    reader.finish()?;
    Ok(Leaf::Break)
}

/// `continue`
#[tactic(auto, using(arguments::proofs::Chaining::said_went, arguments::proofs::Chaining::refuses_went), unfolding(crate::specs::Leaves::continue_tag, nodes::specs::Trees::leaf_of))]
pub fn parse_continue(reader: &mut Reader<'_>) -> Result<Leaf, Stop>
    ensures says { Said result (continue_tag (under reader.old)) (Leaves (pool_of reader.new)) (under reader.new) }
    ensures grown { Grown reader.old reader.new }
{
    reader.finish()?;
    Ok(Leaf::Continue)
}
