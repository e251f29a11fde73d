// The arguments of `assign`.
ghost use Rattle.arguments.specs.Tables.{pool_of, under, Said, Grown};
ghost use Rattle.tags.specs.Leaves.{assign_tag};
ghost use Rattle.tags.specs.Reading.{Leaves};

use arguments::reader::Reader;
use arguments::refusals::Stop;
use cutter::lengths::Symbol;
use nodes::table::Leaf;

/// `assign target = value | filters`
#[tactic(auto, using(arguments::proofs::Chaining::said_went, arguments::proofs::Chaining::refuses_went, arguments::proofs::Chaining::grown_then), unfolding(crate::specs::Leaves::assign_tag))]
pub fn parse(reader: &mut Reader<'_>) -> Result<Leaf, Stop>
    ensures says { Said result (assign_tag reader.old.mark (under reader.old)) (Leaves (pool_of reader.new)) (under reader.new) }
    ensures grown { Grown reader.old reader.new }
{
    let target = reader.target()?;
    reader.expect_symbol(Symbol::Assign)?;
    let chain = reader.chain()?;
    Ok(Leaf::Assign(target, chain))
}
