// `ifchanged`: its text stays where it differs from that before.
ghost use Rattle.std.specs.Prelude.{◌≡◌, ◌≤◌, ℕ, length, take};
ghost use Rattle.drawers.specs.Shown.{shows};
ghost use Rattle.meaning.specs.Acts.{step, gives};
ghost use Rattle.meaning.specs.Blocks.{closed};
ghost use Rattle.meaning.specs.Frames.{Frames as Around, watching};
ghost use Rattle.meaning.specs.Leaves.{Flow as Came};
ghost use Rattle.renderer.specs.Ends.{Ends};

use crate::ends::Stopped;
use crate::stdlib::blocks::capture_block::text_from;
use drawers::things::Drawers;
use held::faults::Fault;
use tray::parts::same_text;

/// Makes the text from a mark on the changed text, and leaves it in the buffer only if it differs from the one before.
pub(crate) fn show_text(
    mark: usize,
    drawers: &mut Drawers,
    out: &[u8],
    filled: usize,
) -> Result<usize, Stopped>
    ensures { (p : ℕ) (e : Around) (f : Came) → filled ≤ length out.now → Ends (closed watching p e mark (step (shows drawers.old) (take filled out.now) (gives f))) f p e (shows drawers.new) (length out.now) out.now result }
{
    let text = text_from(out, mark, filled);
    let cut = mark.min(filled);
    let same = same_text(drawers.changed(), text);
    if !drawers.set_changed(text) {
        return Err(Stopped {
            fault: Fault::TooLong,
            filled: cut,
        });
    }
    Ok(if same { cut } else { filled })
}
