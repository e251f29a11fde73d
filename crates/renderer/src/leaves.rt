// The elements that hold no others.
ghost use Rattle.std.specs.Prelude.{◌≡◌};
ghost use Rattle.drawers.specs.Shown.{shows};
ghost use Rattle.renderer.specs.Leaves.{LeafDone};

use crate::stdlib::leaf_tags::assign_tag::assign;
use crate::stdlib::leaf_tags::cycle_tag::cycle;
use crate::stdlib::leaf_tags::increment_tags::{decrement, increment};
use crate::stdlib::output::{write_output, write_plain};
use banks::bank::Bank;
use drawers::things::Drawers;
use frames::stack::Frames;
use held::faults::Fault;
use held::scenes::Scene;
use nodes::table::Leaf;

/// Renders a leaf; answers where the text ends then.
pub(crate) fn render_leaf<B: Bank>(
    scene: Scene,
    frames: &Frames,
    drawers: &mut Drawers,
    bank: &mut B,
    leaf: Leaf,
    out: &mut [u8],
    filled: usize,
) -> Result<usize, Fault>
    ensures done { LeafDone scene.entry frames.now (B.Bank.meaning bank.old) (shows drawers.old) (shows drawers.new) filled out.old out.new result leaf }
    ensures same { B.Bank.meaning bank.new ≡ B.Bank.meaning bank.old }
{
    match leaf {
        Leaf::Plain(part) => write_plain(scene, part, out, filled),
        Leaf::Output(chain) => write_output(scene, frames, drawers, bank, chain, out, filled),
        Leaf::Assign(n, chain) => assign(scene, frames, drawers, bank, n, chain, filled),
        Leaf::Increment(n) => increment(drawers, n, out, filled),
        Leaf::Decrement(n) => decrement(drawers, n, out, filled),
        Leaf::Cycle(n, values) => cycle(scene, frames, drawers, n, values, out, filled),
        Leaf::Break | Leaf::Continue => Ok(filled),
    }
}
