// The elements of a list.
ghost use Rattle.std.specs.Prelude.{◌≡◌, ◌<◌, ◌+◌, ℕ, List, Some, length, true};
ghost use Rattle.std.specs.List.{slice_get};
ghost use Rattle.banks.specs.Meaning.{Meaning};
ghost use Rattle.drawers.specs.Shown.{shows};
ghost use Rattle.frames.specs.Views.{open_in};
ghost use Rattle.meaning.specs.Acts.{Step};
ghost use Rattle.meaning.specs.Leaves.{Flow as Came};
ghost use Rattle.nodes.specs.declared.table.Node.TheVariants.{Leaf as leaf_node, Open as open_node, Case as case_node};
ghost use Rattle.renderer.specs.declared.machine.Mode.TheVariants.{Elements};
ghost use Rattle.renderer.specs.declared.machine.Move.TheVariants.{On};
ghost use Rattle.renderer.specs.Machines.{block_fits, steps_left, Stands, Stepped};

use crate::flow::Flow;
use crate::guards::First;
use crate::leaves::render_leaf;
use crate::machine::arms::Tag;
use crate::machine::modes::mode_after;
use crate::machine::{Machine, Mode, Move};
use crate::openings::{open_block, open_case};
use crate::stdlib::leaf_tags::interrupt_tags::flow_after;
use banks::bank::Bank;
use drawers::things::Drawers;
use held::scenes::Scene;
use nodes::exprs::Expr;
use nodes::table::{Arm, Block, Leaf, Next, Node};

impl Machine {
    // Renders a leaf.
    fn leaf<B: Bank>(
        &mut self,
        scene: Scene,
        drawers: &mut Drawers,
        bank: &mut B,
        place: usize,
        leaf: Leaf,
        out: &mut [u8],
    ) -> Move
        requires elements { self.old.mode ≡ Elements }
        requires within { self.old.at < self.old.end }
        ensures did { (limit stop : ℕ) (fin : Step Came) → slice_get scene.entry.book.nodes.now self.old.at ≡ Some (leaf_node place leaf) → Stands scene.entry (B.Bank.meaning bank.old) limit stop fin self.old (shows drawers.old) out.old → Stepped scene.entry (B.Bank.meaning bank.old) limit stop fin self.new (shows drawers.new) out.new result }
        ensures less { result ≡ On → steps_left self.new < steps_left self.old }
        ensures same { B.Bank.meaning bank.new ≡ B.Bank.meaning bank.old }
    {
        match render_leaf(scene, &self.frames, drawers, bank, leaf, out, self.filled) {
            Ok(filled) => {
                self.filled = filled;
                self.at += 1;
                self.mode = mode_after(flow_after(leaf));
                Move::On
            }
            Err(fault) => self.fail(fault, place),
        }
    }

    // Opens a block that is no `case`, and takes an arm.
    fn open(&mut self, scene: Scene, drawers: &Drawers, tag: Tag, arm: Arm) -> Move
        requires elements { self.old.mode ≡ Elements }
        requires fits { block_fits self.old.at self.old.end (length (open_in self.old.frames)) tag.end ≡ true }
        ensures did { (m : Meaning) (limit stop : ℕ) (fin : Step Came) (out : List ℕ) → slice_get scene.entry.book.nodes.now self.old.at ≡ Some (open_node tag.place tag.block arm tag.end) → Stands scene.entry m limit stop fin self.old (shows drawers.now) out → Stepped scene.entry m limit stop fin self.new (shows drawers.now) out result }
        ensures less { result ≡ On → steps_left self.new < steps_left self.old }
    {
        match open_block(scene, &self.frames, drawers, tag.block) {
            Ok(opened) => {
                let first = First::Arm(self.at, arm);
                self.take_arm(scene, drawers, tag, first, opened)
            }
            Err(fault) => self.fail(fault, tag.place),
        }
    }

    // Opens a `case`, and takes an arm; its arms are visited like those of an `if`.
    fn open_case(
        &mut self,
        scene: Scene,
        drawers: &Drawers,
        place: usize,
        target: Expr,
        then: Next,
        end: usize,
    ) -> Move
        requires elements { self.old.mode ≡ Elements }
        requires fits { block_fits self.old.at self.old.end (length (open_in self.old.frames)) end ≡ true }
        ensures did { (m : Meaning) (limit stop : ℕ) (fin : Step Came) (out : List ℕ) → slice_get scene.entry.book.nodes.now self.old.at ≡ Some (case_node place target then end) → Stands scene.entry m limit stop fin self.old (shows drawers.now) out → Stepped scene.entry m limit stop fin self.new (shows drawers.now) out result }
        ensures less { result ≡ On → steps_left self.new < steps_left self.old }
    {
        let tag = Tag {
            place,
            block: Block::If,
            end,
        };
        match open_case(scene, &self.frames, drawers, target) {
            Ok(opened) => {
                let first = First::Behind(then, self.at + 1);
                self.take_arm(scene, drawers, tag, first, opened)
            }
            Err(fault) => self.fail(fault, place),
        }
    }

    /// The next element of the list, or its end.
    pub(crate) fn element<B: Bank>(
        &mut self,
        scene: Scene,
        drawers: &mut Drawers,
        bank: &mut B,
        out: &mut [u8],
    ) -> Move
        requires { self.old.mode ≡ Elements }
        ensures did { (limit stop : ℕ) (fin : Step Came) → Stands scene.entry (B.Bank.meaning bank.old) limit stop fin self.old (shows drawers.old) out.old → Stepped scene.entry (B.Bank.meaning bank.old) limit stop fin self.new (shows drawers.new) out.new result }
        ensures less { result ≡ On → steps_left self.new < steps_left self.old }
        ensures same { B.Bank.meaning bank.new ≡ B.Bank.meaning bank.old }
    {
        let Some(node) = self.node(scene.book.nodes) else {
            self.mode = Mode::Ended(Flow::Onward);
            return Move::On;
        };
        match node {
            Node::Leaf { place, leaf } => self.leaf(scene, drawers, bank, place, leaf, out),
            Node::Open {
                place,
                block,
                arm,
                end,
            } => self.open(scene, drawers, Tag { place, block, end }, arm),
            Node::Case {
                place,
                target,
                then,
                end,
            } => self.open_case(scene, drawers, place, target, then, end),
            _ => {
                self.mode = Mode::Ended(Flow::Onward);
                Move::On
            }
        }
    }
}
