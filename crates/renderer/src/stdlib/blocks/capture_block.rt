// `capture`: its text becomes a variable.
ghost use Rattle.std.specs.Prelude.{◌≡◌, ◌<◌, ◌≤◌, ℕ, length, take, drop};
ghost use Rattle.drawers.specs.Shown.{shows};
ghost use Rattle.meaning.specs.Acts.{step, gives};
ghost use Rattle.meaning.specs.Blocks.{closed};
ghost use Rattle.meaning.specs.Frames.{Frames as Around, keeping};
ghost use Rattle.meaning.specs.Leaves.{Flow as Came};
ghost use Rattle.renderer.specs.Ends.{Ends};

use crate::ends::Stopped;
use drawers::kept::keep;
use drawers::things::Drawers;
use held::faults::Fault;
use held::value::Value;

/// The text from a mark on, where `filled` bytes are text.
pub(crate) fn text_from(out: &[u8], mark: usize, filled: usize) -> &[u8]
    ensures { filled ≤ length out.now → result.now ≡ drop mark (take filled out.now) }
{
    out.get(mark..filled).unwrap_or(&[])
}

/// Keeps the text from a mark on as the variable of a name, and takes it out of the buffer.
pub(crate) fn keep_text(
    target: usize,
    mark: usize,
    drawers: &mut Drawers,
    out: &[u8],
    filled: usize,
) -> Result<usize, Stopped>
    ensures { (p : ℕ) (e : Around) (f : Came) → target < 128 → filled ≤ length out.now → Ends (closed (keeping target) p e mark (step (shows drawers.old) (take filled out.now) (gives f))) f p e (shows drawers.new) (length out.now) out.now result }
{
    let text = text_from(out, mark, filled);
    let filled = mark.min(filled);
    let Some(kept) = keep(Value::Text(text)) else {
        return Err(Stopped {
            fault: Fault::TooLong,
            filled,
        });
    };
    drawers.set_variable(target, kept);
    Ok(filled)
}
