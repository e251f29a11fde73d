// Steps into what a path has come to.
ghost use Rattle.std.specs.Prelude.{◌≡◌, Some, map};
ghost use Rattle.std.specs.Option.{option_map};
ghost use Rattle.frames.specs.Views.{around_in, met_of};
ghost use Rattle.held.specs.Records.{step_into};
ghost use Rattle.held.specs.Scenes.{Fits, host_in};
ghost use Rattle.meaning.specs.Looking.{World, met_step, walked};
ghost use Rattle.evaluation.specs.Steps.{step_in};

use crate::names::part_in;
use frames::met::Met;
use frames::stack::Frames;
use held::records::into_value;
use held::scenes::Scene;
use nodes::book::Book;
use nodes::exprs::Step;
use values::steps::Step as Into;

// A step with the bytes of its key.
fn spelled<'a>(book: Book<'a>, step: Step) -> Into<'a>
    ensures { step_into result ≡ step_in book.entry.source.now step }
{
    match step {
        Step::Index(n) => Into::Number(n),
        Step::Key(part) => Into::Name(part_in(book, part)),
    }
}

// What one step from there comes to, if it comes anywhere.
fn step_from<'a>(scene: Scene<'a>, frames: &Frames, met: Met<'a>, step: Into) -> Option<Met<'a>>
    ensures { (w : World) → Fits w scene.entry → option_map (met_of (around_in (host_in scene.entry) frames.now)) result ≡ met_step w (met_of (around_in (host_in scene.entry) frames.now) met.entry) (step_into step.entry) }
{
    match met {
        Met::Value(value) => Some(Met::Value(into_value(scene.tray, value, step)?)),
        Met::Loop(of) => match step {
            Into::Number(_) => None,
            Into::Name(key) => frames.field(of, key),
        },
    }
}

/// What the steps from there come to.
pub(crate) fn walk<'a>(
    scene: Scene<'a>,
    frames: &Frames,
    from: Met<'a>,
    steps: &[Step],
) -> Option<Met<'a>>
    ensures { (w : World) → Fits w scene.entry → walked w (Some (met_of (around_in (host_in scene.entry) frames.now) from.entry)) (map (step_in scene.entry.book.source.now) steps.now) ≡ option_map (met_of (around_in (host_in scene.entry) frames.now)) result }
{
    let mut met = from;
    let mut left = steps;
    while let Some((step, rest)) = left.split_first() {
        met = step_from(scene, frames, met, spelled(scene.book, *step))?;
        left = rest;
    }
    Some(met)
}
