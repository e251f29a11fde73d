// The rendering of a template's nodes, from the first step to the last.
ghost use Rattle.std.specs.Prelude.{◌≡◌, ◌<◌, length};
ghost use Rattle.drawers.specs.Shown.{shows};
ghost use Rattle.held.specs.Scenes.{pool_of};
ghost use Rattle.tree.specs.Elements.{Tree};
ghost use Rattle.renderer.specs.Leaves.{Few};
ghost use Rattle.renderer.specs.Rendered.{NodesRendered};
ghost use Rattle.renderer.specs.Running.{Spells};

use crate::machine::{Machine, Move};
use banks::bank::Bank;
use drawers::things::Drawers;
use frames::frame::TrailRecord;
use held::faults::Fault;
use held::scenes::Scene;

/// A fault of the element at a place, and how many bytes of text it left.
#[derive(Clone, Copy)]
pub(crate) struct Failure {
    pub(crate) fault: Fault,
    pub(crate) place: usize,
    pub(crate) filled: usize,
}

/// Renders the nodes from `from` up to `end`; answers where the text ends. A fault leaves its trail.
pub(crate) fn run_to_end<B: Bank>(
    scene: Scene,
    drawers: &mut Drawers,
    bank: &mut B,
    from: usize,
    end: usize,
    out: &mut [u8],
    trail: &mut [TrailRecord],
) -> Result<usize, Failure>
    ensures rendered { (t : Tree) → Few scene.entry → Spells (pool_of scene.entry) scene.entry.book.nodes.now 16 from end t → NodesRendered scene.entry (B.Bank.meaning bank.old) t (shows drawers.old) (shows drawers.new) out.old out.new trail.old trail.new result }
    ensures same { B.Bank.meaning bank.new ≡ B.Bank.meaning bank.old }
    ensures short { length trail.old < 16 → trail.new ≡ trail.old }
{
    let mut machine = Machine::new(from, end);
    'steps: loop {
        match machine.step(scene, drawers, bank, out) {
            Move::On => {}
            Move::Through => return Ok(machine.filled),
            Move::Fault { fault, place } => {
                machine.frames.write_trail(trail);
                return Err(Failure {
                    fault,
                    place,
                    filled: machine.filled,
                });
            }
        }
    }
}
