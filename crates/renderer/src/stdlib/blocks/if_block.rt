// Conditions of `if`, `unless` and `elsif`.
ghost use Rattle.std.specs.Prelude.{◌≡◌, false, not};
ghost use Rattle.std.specs.Option.{option_map};
ghost use Rattle.drawers.specs.Shown.{shows};
ghost use Rattle.frames.specs.Views.{met_of};
ghost use Rattle.nodes.specs.declared.table.Node.TheVariants as node_of;
ghost use Rattle.meaning.specs.Frames.{Frames as Around};
ghost use Rattle.meaning.specs.Tests.{there};
ghost use Rattle.renderer.specs.Guards.{Compared, Tested, Judged};

use comparisons::compare::compare;
use comparisons::truth::is_true;
use drawers::things::Drawers;
use evaluation::looking::{eval, reach};
use frames::met::Met;
use frames::stack::Frames;
use held::faults::Fault;
use held::scenes::Scene;
use nodes::exprs::{Comparison, Expr};
use nodes::table::Node;

// Whether what a value has come to passes a test of its existence.
fn is_there(met: Option<Met>) -> bool
    ensures { (e : Around) → result ≡ there (option_map (met_of e) met.entry) }
{
    let Some(met) = met else {
        return false;
    };
    match met {
        Met::Value(value) => is_true(value),
        Met::Loop(_) => true,
    }
}

// Whether a comparison holds. Both sides are evaluated, the left one first.
fn compared(
    scene: Scene,
    frames: &Frames,
    drawers: &Drawers,
    left: Expr,
    comparison: Comparison,
    right: Expr,
) -> Result<bool, Fault>
    ensures { Compared scene.entry frames.now (shows drawers.now) left comparison right result }
{
    let left = eval(scene, frames, drawers, left)?;
    let right = eval(scene, frames, drawers, right)?;
    compare(scene.tray, left, comparison, right)
}

// Whether a test passes; a node that is none fails.
fn test(scene: Scene, frames: &Frames, drawers: &Drawers, node: Node) -> Result<bool, Fault>
    ensures { Tested scene.entry frames.now (shows drawers.now) node result }
{
    match node {
        Node::Exists(value) => Ok(is_there(reach(scene, frames, drawers, value))),
        Node::Compares(left, comparison, right) => {
            compared(scene, frames, drawers, left, comparison, right)
        }
        _ => Ok(false),
    }
}

// Whether the tests behind a join are needed, after one that came out so: `and` needs them after one that passed, `or` after one that failed.
fn goes_on(join: Node, passed: bool) -> bool
    ensures joins { (join ≡ node_of.And → result ≡ passed) × (join ≡ node_of.Or → result ≡ not passed) }
    ensures other { (join ≡ node_of.And → ⊥) → (join ≡ node_of.Or → ⊥) → result ≡ false }
{
    match join {
        Node::And => passed,
        Node::Or => !passed,
        _ => false,
    }
}

/// Whether the condition holds whose nodes are those from `from` up to `end`: from the left, as far as needed.
pub(crate) fn judge(
    scene: Scene,
    frames: &Frames,
    drawers: &Drawers,
    from: usize,
    end: usize,
) -> Result<bool, Fault>
    ensures { Judged scene.entry frames.now (shows drawers.now) from end result }
{
    let nodes = scene.book.nodes;
    let mut i = from;
    while let Some(node) = nodes.get(i) {
        let passed = test(scene, frames, drawers, *node)?;
        let Some(join) = nodes.get(i + 1) else {
            return Ok(passed);
        };
        let more = goes_on(*join, passed);
        if i + 1 == end || !more {
            return Ok(passed);
        }
        i += 2;
    }
    Ok(false)
}
