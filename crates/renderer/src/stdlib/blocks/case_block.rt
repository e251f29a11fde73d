// Values of a `when`.
ghost use Rattle.drawers.specs.Shown.{shows};
ghost use Rattle.held.specs.Records.{held_in};
ghost use Rattle.renderer.specs.Guards.{OneEqual};

use comparisons::same::same;
use drawers::things::Drawers;
use evaluation::looking::eval;
use frames::stack::Frames;
use held::faults::Fault;
use held::scenes::Scene;
use held::value::Value;
use nodes::book::entries;
use nodes::exprs::Span;

/// Whether one of the values is equal to the target: each is evaluated in turn, until one is.
pub(crate) fn one_equal(
    scene: Scene,
    frames: &Frames,
    drawers: &Drawers,
    values: Span,
    target: Value<&[u8]>,
) -> Result<bool, Fault>
    ensures { OneEqual scene.entry frames.now (shows drawers.now) values (held_in target.entry) result }
{
    let mut left = entries(scene.book.values, values);
    while let Some((value, rest)) = left.split_first() {
        let value = eval(scene, frames, drawers, *value)?;
        if same(scene.tray, value, target) {
            return Ok(true);
        }
        left = rest;
    }
    Ok(false)
}
