// `{% cycle name: value, .. %}`.
ghost use Rattle.std.specs.Prelude.{◌≡◌, ◌+◌, ◌%◌, ◌<◌};
ghost use Rattle.banks.specs.Meaning.{Meaning};
ghost use Rattle.drawers.specs.Shown.{shows};
ghost use Rattle.nodes.specs.declared.table.Leaf.TheVariants.{Cycle};
ghost use Rattle.renderer.specs.Leaves.{LeafDone};

use drawers::things::Drawers;
use evaluation::looking::eval;
use frames::stack::Frames;
use held::faults::Fault;
use held::scenes::Scene;
use nodes::book::entries;
use nodes::exprs::Span;
use pages::write::write_value;

// The position behind one, around `count`.
fn advanced(position: usize, count: usize) -> usize
    requires { 0 < count }
    ensures { result ≡ (position + 1) % count }
{
    let last = position % count;
    if last == count - 1 { 0 } else { last + 1 }
}

/// Writes the value at the position, which is advanced before anything else. No values, and a position past them, are faults.
pub(crate) fn cycle(
    scene: Scene,
    frames: &Frames,
    drawers: &mut Drawers,
    name: usize,
    values: Span,
    out: &mut [u8],
    filled: usize,
) -> Result<usize, Fault>
    ensures { (m : Meaning) → LeafDone scene.entry frames.now m (shows drawers.old) (shows drawers.new) filled out.old out.new result (Cycle name values) }
{
    let values = entries(scene.book.values, values);
    if values.is_empty() {
        return Err(Fault::NoValues);
    }
    let position = drawers.position(name);
    drawers.set_position(name, advanced(position, values.len()));
    let value = values.get(position).ok_or(Fault::PastValues)?;
    let value = eval(scene, frames, drawers, *value)?;
    write_value(scene.tray, value, out, filled)
}
