// What stands in an output.
ghost use Rattle.arguments.specs.Tables.{pool_of, under, Said, Grown};
ghost use Rattle.tags.specs.Leaves.{output_of};
ghost use Rattle.tags.specs.Reading.{Leaves};

use arguments::reader::Reader;
use arguments::refusals::Stop;
use nodes::table::Leaf;

/// `{{ value | filters }}`
#[tactic(auto, using(arguments::proofs::Chaining::said_went, arguments::proofs::Chaining::refuses_went), unfolding(crate::specs::Leaves::output_of))]
pub fn parse_output(reader: &mut Reader<'_>) -> Result<Leaf, Stop>
    ensures says { Said result (output_of reader.old.mark (under reader.old)) (Leaves (pool_of reader.new)) (under reader.new) }
    ensures grown { Grown reader.old reader.new }
{
    Ok(Leaf::Output(reader.chain()?))
}
