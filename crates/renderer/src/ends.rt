// What is done at the start and the end of a visit, and where a block is closed.
ghost use Rattle.std.specs.Prelude.{◌≡◌, ◌<◌, ◌≤◌, ℕ, length, take};
ghost use Rattle.drawers.specs.Shown.{shows};
ghost use Rattle.frames.specs.Views.{manner_of};
ghost use Rattle.meaning.specs.Acts.{step, gives};
ghost use Rattle.meaning.specs.Blocks.{enters, leaves, closed};
ghost use Rattle.meaning.specs.Frames.{Frames as Around};
ghost use Rattle.meaning.specs.Leaves.{Flow as Came};
ghost use Rattle.meaning.specs.Looking.{World};
ghost use Rattle.meaning.specs.Things.{Drawers as Things};
ghost use Rattle.renderer.specs.Flows.{flow_of};
ghost use Rattle.renderer.specs.Ends.{stopping, Ends, TargetFits};

use crate::flow::Flow;
use crate::stdlib::blocks::capture_block::keep_text;
use crate::stdlib::blocks::ifchanged_block::show_text;
use crate::stdlib::blocks::tablerow_block::{begin_cell, end_cell};
use drawers::things::Drawers;
use frames::frame::Manner;
use held::faults::Fault;

/// A fault, and where the text ended then.
#[derive(Clone, Copy)]
pub(crate) struct Stopped {
    pub(crate) fault: Fault,
    pub(crate) filled: usize,
}

/// The same answer; where it is a fault, the text ended at `filled`.
pub(crate) fn with_end(answer: Result<usize, Fault>, filled: usize) -> Result<usize, Stopped>
    ensures { result ≡ stopping filled answer }
{
    match answer {
        Ok(end) => Ok(end),
        Err(fault) => Err(Stopped { fault, filled }),
    }
}

/// The start of the visit with that index.
pub(crate) fn enter(
    manner: Manner,
    index: u16,
    out: &mut [u8],
    filled: usize,
) -> Result<usize, Stopped>
    ensures { (w : World) (p : ℕ) (e : Around) (d : Things) → w.limit ≡ length out.old → filled ≤ length out.old → Ends (enters w (manner_of manner) index p e d (take filled out.old)) tt p e d (length out.old) out.new result }
{
    match manner {
        Manner::Cells { cols, .. } => begin_cell(cols, index, out, filled),
        _ => Ok(filled),
    }
}

/// The end of the visit with that index, which came to a flow.
pub(crate) fn leave(
    manner: Manner,
    index: u16,
    flow: Flow,
    out: &mut [u8],
    filled: usize,
) -> Result<usize, Stopped>
    ensures { (w : World) (p : ℕ) (e : Around) (d : Things) → w.limit ≡ length out.old → filled ≤ length out.old → Ends (leaves w (manner_of manner) index p e (flow_of flow) d (take filled out.old)) (flow_of flow) p e d (length out.old) out.new result }
{
    match manner {
        Manner::Cells { count, cols, .. } => end_cell(count, cols, index, flow, out, filled),
        _ => Ok(filled),
    }
}

/// Closes a block before which `mark` bytes stood in the buffer.
pub(crate) fn close(
    manner: Manner,
    mark: usize,
    drawers: &mut Drawers,
    out: &[u8],
    filled: usize,
) -> Result<usize, Stopped>
    ensures { (p : ℕ) (e : Around) (f : Came) → TargetFits 128 manner → filled ≤ length out.now → Ends (closed (manner_of manner) p e mark (step (shows drawers.old) (take filled out.now) (gives f))) f p e (shows drawers.new) (length out.now) out.now result }
{
    match manner {
        Manner::Keeping(target) => keep_text(target, mark, drawers, out, filled),
        Manner::Watching => show_text(mark, drawers, out, filled),
        Manner::Once | Manner::Each { .. } | Manner::Cells { .. } => Ok(filled),
    }
}
