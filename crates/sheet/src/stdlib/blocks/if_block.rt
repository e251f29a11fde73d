// `if` and `unless`.
ghost use Rattle.arguments.specs.Tables.{under, Said, Longer};
ghost use Rattle.sheet.specs.Blocks.{opened_if, opened_unless, elsif, in_if};
ghost use Rattle.sheet.specs.Opening.{tag_of, OpensIn, Follows};

use crate::blocks::{Following, Opened, ended, hold, unknown};
use crate::names::Closer;
use arguments::reader::Reader;
use arguments::refusals::Stop;
use cutter::tokens::Word;
use nodes::table::{Block, Guard};
use tags::stdlib::blocks::if_block::parse_condition;

#[tactic(auto, using(arguments::proofs::Chaining::said_went, arguments::proofs::Chaining::refuses_went, arguments::proofs::Chaining::longer_then, arguments::proofs::Chaining::grown_longer, crate::proofs::Guards::holding), unfolding(crate::specs::Blocks::opened_if, nodes::specs::Trees::block_of))]
pub(crate) fn open_if(reader: &mut Reader<'_>) -> Result<Opened, Stop>
    ensures says { Said result (opened_if reader.old.mark (under reader.old)) (OpensIn reader.old reader.new) (under reader.new) }
    ensures longer { Longer reader.old reader.new }
{
    parse_condition(reader)?;
    Ok(Opened::Arm(Block::If, Guard::Holds))
}

#[tactic(auto, using(arguments::proofs::Chaining::said_went, arguments::proofs::Chaining::refuses_went, arguments::proofs::Chaining::longer_then, arguments::proofs::Chaining::grown_longer, crate::proofs::Guards::failing), unfolding(crate::specs::Blocks::opened_unless, nodes::specs::Trees::block_of))]
pub(crate) fn open_unless(reader: &mut Reader<'_>) -> Result<Opened, Stop>
    ensures says { Said result (opened_unless reader.old.mark (under reader.old)) (OpensIn reader.old reader.new) (under reader.new) }
    ensures longer { Longer reader.old reader.new }
{
    parse_condition(reader)?;
    Ok(Opened::Arm(Block::If, Guard::Fails))
}

// Another arm.
#[tactic(auto, using(arguments::proofs::Chaining::said_went, arguments::proofs::Chaining::refuses_went, arguments::proofs::Chaining::longer_then, arguments::proofs::Chaining::grown_longer, crate::proofs::Guards::elsif_arm), unfolding(crate::specs::Blocks::elsif))]
fn elsif(reader: &mut Reader<'_>) -> Result<Following, Stop>
    ensures says { Said result (elsif reader.old.mark (under reader.old)) (Follows reader.old reader.new) (under reader.new) }
    ensures longer { Longer reader.old reader.new }
{
    hold(reader)?;
    parse_condition(reader)?;
    Ok(Following::Arm(Guard::Holds))
}

#[tactic(auto, using(arguments::proofs::Chaining::said_went, arguments::proofs::Chaining::refuses_went, arguments::proofs::Chaining::longer_then, arguments::proofs::Chaining::grown_longer, crate::proofs::Guards::elsif_arm), unfolding(crate::specs::Blocks::in_if))]
pub(crate) fn after_if(
    reader: &mut Reader<'_>,
    tag: Word,
    closer: Closer,
) -> Result<Following, Stop>
    ensures says { Said result (in_if (tag_of reader.old tag.entry) closer (under reader.old)) (Follows reader.old reader.new) (under reader.new) }
    ensures longer { Longer reader.old reader.new }
{
    match closer {
        Closer::End => ended(reader),
        Closer::Else => Ok(Following::Else),
        Closer::Elsif => elsif(reader),
        Closer::When | Closer::Other => Err(unknown(tag)),
    }
}
