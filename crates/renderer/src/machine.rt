// What renders a ticket: a loop over the open blocks, never a recursion.
ghost use Rattle.std.specs.Prelude.{◌≡◌, []};
ghost use Rattle.frames.specs.Views.{open_in};
ghost use Rattle.renderer.specs.declared.machine.Mode.TheVariants.{Elements};

use crate::flow::Flow;
use banks::bank::Bank;
use drawers::things::Drawers;
use frames::stack::Frames;
use held::faults::Fault;
use held::scenes::Scene;

mod arms;
mod lists;
mod modes;
mod opening;
pub(crate) mod running;
mod under_way;
mod visits;

/// Where a ticket stands: at the elements of a list; at the end of one; between two visits of the innermost block; behind all of them.
#[derive(Clone, Copy)]
pub(crate) enum Mode {
    Elements,
    Ended(Flow),
    Between,
    Closing(Flow),
}

/// The open blocks, where the ticket stands, the node under way and the end of its list, and how many bytes of the buffer are text.
#[derive(Drop)]
pub(crate) struct Machine {
    frames: Frames,
    mode: Mode,
    at: usize,
    end: usize,
    filled: usize,
}

/// What a step comes to: the rendering goes on; it is through; or a fault ends it, of the element at a place.
pub(crate) enum Move {
    On,
    Through,
    Fault { fault: Fault, place: usize },
}

impl Machine {
    ghost use Rattle.std.specs.Prelude.{◌≤◌, ℕ, List, drop, length, take};
    ghost use Rattle.frames.specs.Cuts.{cutback};
    ghost use Rattle.renderer.specs.declared.machine.Move.TheVariants.{Fault as fault_move};
    ghost use Rattle.renderer.specs.Machines.{CutFrom};

    /// At the first of the nodes from `at` up to `end`, with nothing written.
    fn new(at: usize, end: usize) -> Machine
        ensures frames { open_in result.frames ≡ [] }
        ensures begins { (result.mode ≡ Elements) × (result.at ≡ at) × (result.end ≡ end) × (result.filled ≡ 0) }
    {
        Machine {
            frames: Frames::new(),
            mode: Mode::Elements,
            at,
            end,
            filled: 0,
        }
    }

    // A fault of the element at a place: what open blocks keep or watch is taken out of the text.
    fn fail(&mut self, fault: Fault, place: usize) -> Move
        ensures fault { result ≡ fault_move fault place }
        ensures frames { self.new.frames ≡ self.old.frames }
        ensures cut { CutFrom (open_in self.old.frames) self.old.filled self.new.filled }
    {
        self.filled = self.frames.cut_back(self.filled);
        Move::Fault { fault, place }
    }

    // A fault of the innermost block, which does not stand around itself.
    fn fail_outside(&mut self, fault: Fault, place: usize) -> Move
        ensures fault { result ≡ fault_move fault place }
        ensures frames { open_in self.new.frames ≡ drop 1 (open_in self.old.frames) }
        ensures cut { CutFrom (open_in self.old.frames) self.old.filled self.new.filled }
    {
        self.filled = self.frames.cut_back(self.filled);
        self.frames.close();
        Move::Fault { fault, place }
    }
}

impl Machine {
    ghost use Rattle.std.specs.Prelude.{◌<◌, ℕ};
    ghost use Rattle.drawers.specs.Shown.{shows};
    ghost use Rattle.meaning.specs.Acts.{Step};
    ghost use Rattle.meaning.specs.Leaves.{Flow as Came};
    ghost use Rattle.renderer.specs.declared.machine.Move.TheVariants.{On};
    ghost use Rattle.renderer.specs.Machines.{steps_left, Stands, Stepped};

    // One step of the rendering.
    fn step<B: Bank>(
        &mut self,
        scene: Scene,
        drawers: &mut Drawers,
        bank: &mut B,
        out: &mut [u8],
    ) -> Move
        ensures did { (limit stop : ℕ) (fin : Step Came) → Stands scene.entry (B.Bank.meaning bank.old) limit stop fin self.old (shows drawers.old) out.old → Stepped scene.entry (B.Bank.meaning bank.old) limit stop fin self.new (shows drawers.new) out.new result }
        ensures less { result ≡ On → steps_left self.new < steps_left self.old }
        ensures same { B.Bank.meaning bank.new ≡ B.Bank.meaning bank.old }
    {
        match self.mode {
            Mode::Elements => self.element(scene, drawers, bank, out),
            Mode::Ended(flow) => self.end_visit(flow, out),
            Mode::Between => self.begin_visit(out),
            Mode::Closing(flow) => self.close_block(flow, drawers, out),
        }
    }
}
