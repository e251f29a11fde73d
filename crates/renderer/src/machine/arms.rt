// The arms of blocks.
ghost use Rattle.std.specs.Prelude.{◌≡◌, ◌<◌, ◌≤◌, ◌∷◌, ℕ, List, Some, length, true};
ghost use Rattle.banks.specs.Meaning.{Meaning};
ghost use Rattle.drawers.specs.Shown.{shows};
ghost use Rattle.frames.specs.Views.{open_in};
ghost use Rattle.meaning.specs.Acts.{Step};
ghost use Rattle.meaning.specs.Leaves.{Flow as Came};
ghost use Rattle.renderer.specs.declared.machine.Mode.TheVariants.{Elements, Between};
ghost use Rattle.renderer.specs.declared.machine.Move.TheVariants.{On};
ghost use Rattle.renderer.specs.Arms.{arm_frame, Passed, AtArms};
ghost use Rattle.renderer.specs.declared.guards.Chosen.{Chosen as ChosenArm};
ghost use Rattle.renderer.specs.Guards.{from};
ghost use Rattle.renderer.specs.Machines.{block_fits, steps_left, Stands, Stepped};

use crate::guards::{Chosen, First, Seen, choose};
use crate::machine::opening::{Visits, arm_visits};
use crate::machine::{Machine, Mode, Move};
use crate::openings::Opened;
use drawers::things::Drawers;
use frames::frame::Frame;
use frames::item::Item;
use held::scenes::Scene;
use nodes::table::Block;

/// A block with arms: its place, how its arms are visited, and the node behind it.
#[derive(Clone, Copy)]
pub(crate) struct Tag {
    pub(crate) place: usize,
    pub(crate) block: Block,
    pub(crate) end: usize,
}

impl Machine {
    // Opens the frame of an arm, before its first visit.
    fn open_arm(&mut self, tag: Tag, visits: Visits, arm: Chosen)
        requires { length (open_in self.old.frames) < 16 }
        ensures frames { open_in self.new.frames ≡ arm_frame self.old tag visits arm ∷ open_in self.old.frames }
        ensures begins { (self.new.mode ≡ Between) × (self.new.at ≡ arm.end) × (self.new.end ≡ arm.end) × (self.new.filled ≡ self.old.filled) }
    {
        self.frames.open(Frame {
            place: tag.place,
            manner: visits.manner,
            visit: 0,
            item: Item::Nil,
            times: visits.times,
            row: visits.row,
            body: arm.body,
            end: arm.end,
            next: tag.end,
            outer: self.end,
            mark: self.filled,
        });
        self.at = arm.end;
        self.end = arm.end;
        self.mode = Mode::Between;
    }

    // To the arm that is taken, or behind the block.
    fn pass(&mut self, tag: Tag, opened: Opened, chosen: Option<Chosen>)
        requires fits { block_fits self.old.at self.old.end (length (open_in self.old.frames)) tag.end ≡ true }
        requires elements { self.old.mode ≡ Elements }
        requires within { (a : ChosenArm) → chosen ≡ Some a → (self.old.at < a.body) × (a.body ≤ a.end) × (a.end ≤ tag.end) }
        ensures passed { Passed self.old self.new tag opened.entry chosen }
        ensures less { steps_left self.new < steps_left self.old }
    {
        match chosen {
            None => self.at = tag.end,
            Some(arm) => {
                let visits = arm_visits(tag.block, opened, arm.guard);
                self.open_arm(tag, visits, arm);
            }
        }
    }

    /// Takes the first arm whose guard passes.
    pub(crate) fn take_arm(
        &mut self,
        scene: Scene,
        drawers: &Drawers,
        tag: Tag,
        first: First,
        opened: Opened,
    ) -> Move
        requires fits { block_fits self.old.at self.old.end (length (open_in self.old.frames)) tag.end ≡ true }
        requires behind { self.old.at < from first }
        requires elements { self.old.mode ≡ Elements }
        ensures did { (m : Meaning) (limit stop : ℕ) (fin : Step Came) (out : List ℕ) → AtArms scene.entry m limit stop fin self.old (shows drawers.now) out tag first opened.entry → Stepped scene.entry m limit stop fin self.new (shows drawers.now) out result }
        ensures less { result ≡ On → steps_left self.new < steps_left self.old }
    {
        match choose(
            scene,
            &self.frames,
            drawers,
            first,
            tag.end,
            Seen::of(opened),
        ) {
            Ok(chosen) => {
                self.pass(tag, opened, chosen);
                Move::On
            }
            Err(fault) => self.fail(fault, tag.place),
        }
    }
}
