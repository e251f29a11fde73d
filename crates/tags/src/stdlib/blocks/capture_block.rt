// The arguments of `capture`.
ghost use Rattle.std.specs.Prelude.{length};
ghost use Rattle.arguments.specs.Tables.{under, Said, Grown, Below};
ghost use Rattle.tags.specs.Leaves.{only_target};

use arguments::reader::Reader;
use arguments::refusals::Stop;

/// A target, and no more.
#[tactic(auto, using(arguments::proofs::Chaining::said_went, arguments::proofs::Chaining::refuses_went, arguments::proofs::Chaining::grown_then), unfolding(crate::specs::Leaves::only_target))]
pub fn parse_target(reader: &mut Reader<'_>) -> Result<usize, Stop>
    ensures says { Said result (only_target reader.old.mark (under reader.old)) (Below (length reader.new.names.items)) (under reader.new) }
    ensures grown { Grown reader.old reader.new }
{
    let target = reader.target()?;
    reader.finish()?;
    Ok(target)
}
