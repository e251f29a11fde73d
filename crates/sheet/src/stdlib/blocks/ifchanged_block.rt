// `ifchanged`.
ghost use Rattle.arguments.specs.Tables.{under, Said, Longer};
ghost use Rattle.sheet.specs.Blocks.{opened_ifchanged};
ghost use Rattle.sheet.specs.Opening.{OpensIn};

use crate::blocks::Opened;
use arguments::reader::Reader;
use arguments::refusals::Stop;
use nodes::table::{Block, Guard};

#[tactic(auto, using(arguments::proofs::Chaining::said_went, arguments::proofs::Chaining::refuses_went, arguments::proofs::Chaining::longer_then, arguments::proofs::Chaining::grown_longer, crate::proofs::Guards::always_taken), unfolding(crate::specs::Blocks::opened_ifchanged, nodes::specs::Trees::block_of))]
pub(crate) fn open_ifchanged(reader: &mut Reader<'_>) -> Result<Opened, Stop>
    ensures says { Said result (opened_ifchanged (under reader.old)) (OpensIn reader.old reader.new) (under reader.new) }
    ensures longer { Longer reader.old reader.new }
{
    reader.finish()?;
    Ok(Opened::Arm(Block::Ifchanged, Guard::Always))
}
