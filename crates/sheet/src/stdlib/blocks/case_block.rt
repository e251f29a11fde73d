// `case`.
ghost use Rattle.arguments.specs.Tables.{under, Said, Longer};
ghost use Rattle.sheet.specs.Blocks.{opened_case, when, in_case};
ghost use Rattle.sheet.specs.Opening.{tag_of, OpensIn, Follows};

use crate::blocks::{Following, Opened, bare_else, ended, hold, unknown};
use crate::names::Closer;
use arguments::reader::Reader;
use arguments::refusals::Stop;
use cutter::tokens::Word;
use nodes::table::Guard;
use tags::stdlib::blocks::case_block::parse_values;

#[tactic(auto, using(arguments::proofs::Chaining::said_went, arguments::proofs::Chaining::refuses_went, arguments::proofs::Chaining::longer_then, arguments::proofs::Chaining::grown_longer, crate::proofs::Guards::holding), unfolding(crate::specs::Blocks::opened_case))]
pub(crate) fn open_case(reader: &mut Reader<'_>) -> Result<Opened, Stop>
    ensures says { Said result (opened_case reader.old.mark (under reader.old)) (OpensIn reader.old reader.new) (under reader.new) }
    ensures longer { Longer reader.old reader.new }
{
    let target = reader.value()?;
    reader.finish()?;
    Ok(Opened::Case(target))
}

// Another arm.
#[tactic(auto, using(arguments::proofs::Chaining::said_went, arguments::proofs::Chaining::refuses_went, arguments::proofs::Chaining::longer_then, arguments::proofs::Chaining::grown_longer, crate::proofs::Guards::when_arm), unfolding(crate::specs::Blocks::when))]
fn when(reader: &mut Reader<'_>) -> Result<Following, Stop>
    ensures says { Said result (when reader.old.mark (under reader.old)) (Follows reader.old reader.new) (under reader.new) }
    ensures longer { Longer reader.old reader.new }
{
    hold(reader)?;
    let values = parse_values(reader)?;
    Ok(Following::Arm(Guard::Equals(values)))
}

#[tactic(auto, using(arguments::proofs::Chaining::said_went, arguments::proofs::Chaining::refuses_went, arguments::proofs::Chaining::longer_then, arguments::proofs::Chaining::grown_longer, crate::proofs::Guards::when_arm), unfolding(crate::specs::Blocks::in_case))]
pub(crate) fn after_case(
    reader: &mut Reader<'_>,
    tag: Word,
    closer: Closer,
) -> Result<Following, Stop>
    ensures says { Said result (in_case (tag_of reader.old tag.entry) closer (under reader.old)) (Follows reader.old reader.new) (under reader.new) }
    ensures longer { Longer reader.old reader.new }
{
    match closer {
        Closer::End => ended(reader),
        Closer::Else => bare_else(reader),
        Closer::When => when(reader),
        Closer::Elsif | Closer::Other => Err(unknown(tag)),
    }
}
