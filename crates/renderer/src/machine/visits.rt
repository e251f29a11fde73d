// The visits of the innermost block, and its closing.
ghost use Rattle.std.specs.Prelude.{◌≡◌, ◌<◌, ℕ};
ghost use Rattle.banks.specs.Meaning.{Meaning};
ghost use Rattle.drawers.specs.Shown.{shows};
ghost use Rattle.meaning.specs.Acts.{Step};
ghost use Rattle.meaning.specs.Leaves.{Flow as Came};
ghost use Rattle.meaning.specs.Things.{Drawers as Things};
ghost use Rattle.held.specs.declared.scenes.Scene.{Scene};
ghost use Rattle.renderer.specs.declared.machine.Mode.TheVariants.{Ended, Between, Closing};
ghost use Rattle.renderer.specs.declared.machine.Move.TheVariants.{On};
ghost use Rattle.renderer.specs.Machines.{next_item, steps_left, Stands, Stepped};

use crate::ends::{close, enter, leave};
use crate::flow::Flow;
use crate::machine::modes::{mode_after, mode_after_visit};
use crate::machine::{Machine, Mode, Move};
use drawers::things::Drawers;
use frames::frame::Frame;
use frames::item::Item;
use rows::row::Row;

// The item of the next visit, where one is left.
fn next_item(frame: &Frame) -> Option<Item>
    ensures { result ≡ next_item frame.now }
{
    if frame.visit < frame.times {
        frame.row.item(usize::from(frame.visit))
    } else {
        None
    }
}

impl Machine {
    /// The end of a visit that came to a flow.
    pub(crate) fn end_visit(&mut self, flow: Flow, out: &mut [u8]) -> Move
        ensures did { (s : Scene) (m : Meaning) (limit stop : ℕ) (fin : Step Came) (d : Things) → self.old.mode ≡ Ended flow → Stands s m limit stop fin self.old d out.old → Stepped s m limit stop fin self.new d out.new result }
        ensures less { self.old.mode ≡ Ended flow → result ≡ On → steps_left self.new < steps_left self.old }
    {
        let Some(frame) = self.frames.top() else {
            return Move::Through;
        };
        match leave(frame.manner, frame.index(), flow, out, self.filled) {
            Ok(filled) => {
                self.filled = filled;
                self.mode = mode_after_visit(frame.manner, flow);
                Move::On
            }
            Err(stopped) => {
                self.filled = stopped.filled;
                self.fail_outside(stopped.fault, frame.place)
            }
        }
    }

    /// The start of the next visit, or behind the last one the closing.
    pub(crate) fn begin_visit(&mut self, out: &mut [u8]) -> Move
        ensures did { (s : Scene) (m : Meaning) (limit stop : ℕ) (fin : Step Came) (d : Things) → self.old.mode ≡ Between → Stands s m limit stop fin self.old d out.old → Stepped s m limit stop fin self.new d out.new result }
        ensures less { self.old.mode ≡ Between → result ≡ On → steps_left self.new < steps_left self.old }
    {
        let Some(frame) = self.frames.top() else {
            return Move::Through;
        };
        let Some(item) = next_item(&frame) else {
            self.mode = Mode::Closing(Flow::Onward);
            return Move::On;
        };
        match enter(frame.manner, frame.visit, out, self.filled) {
            Ok(filled) => {
                self.filled = filled;
                self.frames.next_visit(item);
                self.at = frame.body;
                self.end = frame.end;
                self.mode = Mode::Elements;
                Move::On
            }
            Err(stopped) => {
                self.filled = stopped.filled;
                self.fail_outside(stopped.fault, frame.place)
            }
        }
    }

    /// The closing of the block, which came to a flow.
    pub(crate) fn close_block(&mut self, flow: Flow, drawers: &mut Drawers, out: &[u8]) -> Move
        ensures did { (s : Scene) (m : Meaning) (limit stop : ℕ) (fin : Step Came) → self.old.mode ≡ Closing flow → Stands s m limit stop fin self.old (shows drawers.old) out.now → Stepped s m limit stop fin self.new (shows drawers.new) out.now result }
        ensures less { self.old.mode ≡ Closing flow → result ≡ On → steps_left self.new < steps_left self.old }
    {
        let Some(frame) = self.frames.top() else {
            return Move::Through;
        };
        match close(frame.manner, frame.mark, drawers, out, self.filled) {
            Ok(filled) => {
                self.filled = filled;
                self.frames.close();
                self.at = frame.next;
                self.end = frame.outer;
                self.mode = mode_after(flow);
                Move::On
            }
            Err(stopped) => {
                self.filled = stopped.filled;
                self.frames.close();
                self.fail(stopped.fault, frame.place)
            }
        }
    }
}
