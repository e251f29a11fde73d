// `for` and `tablerow`.
ghost use Rattle.arguments.specs.Tables.{under, Said, Longer};
ghost use Rattle.sheet.specs.Blocks.{opened_for, opened_tablerow, in_for};
ghost use Rattle.sheet.specs.Opening.{tag_of, OpensIn, Follows};

use crate::blocks::{Following, Opened, bare_else, ended, unknown};
use crate::names::Closer;
use arguments::reader::Reader;
use arguments::refusals::Stop;
use cutter::tokens::Word;
use nodes::table::Guard;
use tags::stdlib::blocks::for_block::{Loop, for_of, parse_header, tablerow_of};

#[tactic(auto, using(arguments::proofs::Chaining::said_went, arguments::proofs::Chaining::refuses_went, arguments::proofs::Chaining::longer_then, arguments::proofs::Chaining::grown_longer, crate::proofs::Guards::itemed), unfolding(crate::specs::Blocks::opened_for))]
pub(crate) fn open_for(reader: &mut Reader<'_>) -> Result<Opened, Stop>
    ensures says { Said result (opened_for reader.old.mark (under reader.old)) (OpensIn reader.old reader.new) (under reader.new) }
    ensures longer { Longer reader.old reader.new }
{
    let header = parse_header(reader, Loop::For)?;
    Ok(Opened::Arm(for_of(header), Guard::HasItems))
}

#[tactic(auto, using(arguments::proofs::Chaining::said_went, arguments::proofs::Chaining::refuses_went, arguments::proofs::Chaining::longer_then, arguments::proofs::Chaining::grown_longer, crate::proofs::Guards::itemed), unfolding(crate::specs::Blocks::opened_tablerow))]
pub(crate) fn open_tablerow(reader: &mut Reader<'_>) -> Result<Opened, Stop>
    ensures says { Said result (opened_tablerow reader.old.mark (under reader.old)) (OpensIn reader.old reader.new) (under reader.new) }
    ensures longer { Longer reader.old reader.new }
{
    let header = parse_header(reader, Loop::Tablerow)?;
    Ok(Opened::Arm(tablerow_of(header), Guard::HasItems))
}

#[tactic(auto, using(arguments::proofs::Chaining::said_went, arguments::proofs::Chaining::refuses_went, arguments::proofs::Chaining::longer_then, arguments::proofs::Chaining::grown_longer, crate::proofs::Guards::itemed), unfolding(crate::specs::Blocks::in_for))]
pub(crate) fn after_for(
    reader: &mut Reader<'_>,
    tag: Word,
    closer: Closer,
) -> Result<Following, Stop>
    ensures says { Said result (in_for (tag_of reader.old tag.entry) closer (under reader.old)) (Follows reader.old reader.new) (under reader.new) }
    ensures longer { Longer reader.old reader.new }
{
    match closer {
        Closer::End => ended(reader),
        Closer::Else => bare_else(reader),
        Closer::Elsif | Closer::When | Closer::Other => Err(unknown(tag)),
    }
}
