// `{% assign name = value %}`.
ghost use Rattle.std.specs.Prelude.{◌≡◌, ℕ, List};
ghost use Rattle.drawers.specs.Shown.{shows};
ghost use Rattle.nodes.specs.declared.table.Leaf.TheVariants.{Assign};
ghost use Rattle.renderer.specs.Leaves.{LeafDone};

use banks::bank::Bank;
use drawers::kept::keep;
use drawers::things::Drawers;
use evaluation::chains::{chain, value_in};
use frames::stack::Frames;
use held::faults::Fault;
use held::scenes::Scene;
use nodes::exprs::Chain;

/// Sets a variable to what a chain comes to; a text over 256 bytes is a fault. The text of the ticket ends at `filled`, as before.
pub(crate) fn assign<B: Bank>(
    scene: Scene,
    frames: &Frames,
    drawers: &mut Drawers,
    bank: &mut B,
    target: usize,
    value: Chain,
    filled: usize,
) -> Result<usize, Fault>
    ensures done { (text : List ℕ) → LeafDone scene.entry frames.now (B.Bank.meaning bank.old) (shows drawers.old) (shows drawers.new) filled text text result (Assign target value) }
    ensures same { B.Bank.meaning bank.new ≡ B.Bank.meaning bank.old }
{
    let mut answer = [0; 256];
    let came = chain(scene, frames, drawers, bank, value, &mut answer)?;
    let kept = keep(value_in(came, &answer)).ok_or(Fault::TooLong)?;
    drawers.set_variable(target, kept);
    Ok(filled)
}
