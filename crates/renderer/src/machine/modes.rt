// Where a ticket stands behind an element, and behind a visit.
ghost use Rattle.std.specs.Prelude.{◌≡◌};
ghost use Rattle.renderer.specs.Running.{mode_after as after, mode_in_loop as in_loop, mode_after_visit as after_visit};

use crate::flow::Flow;
use crate::machine::Mode;
use frames::frame::Manner;

/// Behind an element that came to a flow.
pub(crate) fn mode_after(flow: Flow) -> Mode
    ensures { result ≡ after flow }
{
    match flow {
        Flow::Onward => Mode::Elements,
        Flow::Broken | Flow::Continued => Mode::Ended(flow),
    }
}

// Behind a visit of a loop: after a `break` it makes no further one.
fn mode_in_loop(flow: Flow) -> Mode
    ensures { result ≡ in_loop flow }
{
    match flow {
        Flow::Broken => Mode::Closing(Flow::Onward),
        Flow::Onward | Flow::Continued => Mode::Between,
    }
}

/// Behind a visit that came to a flow; blocks that are no loops pass it on.
pub(crate) fn mode_after_visit(manner: Manner, flow: Flow) -> Mode
    ensures { result ≡ after_visit manner flow }
{
    match manner {
        Manner::Each { .. } | Manner::Cells { .. } => mode_in_loop(flow),
        Manner::Once | Manner::Keeping(_) | Manner::Watching => Mode::Closing(flow),
    }
}
