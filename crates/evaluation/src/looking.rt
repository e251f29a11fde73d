// What a value of a template comes to.
ghost use Rattle.std.specs.Prelude.{◌≡◌, ℕ, List, Some};
ghost use Rattle.std.specs.Option.{option_map, option_or};
ghost use Rattle.frames.specs.declared.met.Met.TheVariants as met;
ghost use Rattle.frames.specs.Views.{around_in};
ghost use Rattle.meaning.specs.Frames.{bound};
ghost use Rattle.meaning.specs.Things.{name};
ghost use Rattle.drawers.specs.Shown.{shows};
ghost use Rattle.evaluation.specs.Literals.{literal_of};
ghost use Rattle.evaluation.specs.Values.{needed, Found, Reached, Evaluated, NumberFound};
ghost use Rattle.frames.specs.Items.{item_of};
ghost use Rattle.held.specs.Records.{held_in};
ghost use Rattle.held.specs.Scenes.{host_in, Fits};
ghost use Rattle.meaning.specs.Looking.{World, outside as outside_of, number_of};

use crate::names::{outside, part_in};
use crate::steps::walk;
use drawers::things::Drawers;
use frames::item::Item;
use frames::met::{Loop, Met};
use frames::stack::Frames;
use held::faults::Fault;
use held::records::record_value;
use held::scenes::Scene;
use held::value::Value;
use nodes::book::{Book, entries};
use nodes::exprs::{Expr, Head};
use numerals::read_whole;

// An item of a loop as a value.
fn item_value<'a>(scene: Scene<'a>, item: Item) -> Value<&'a [u8]>
    ensures { held_in result ≡ item_of (host_in scene.entry) item }
{
    match item {
        Item::Nil => Value::Nil,
        Item::Record(i) => record_value(scene.tray, i),
        Item::Pair(i) => Value::Pair(i),
        Item::Whole(n) => Value::Whole(n),
    }
}

// What a name means: the innermost frame that binds it decides, else what it means outside the frames.
fn named<'a>(
    scene: Scene<'a>,
    frames: &Frames,
    drawers: &'a Drawers,
    n: usize,
) -> Option<Value<&'a [u8]>>
    ensures { (w : World) → Fits w scene.entry → option_map held_in result ≡ option_or (bound (around_in (host_in scene.entry) frames.now) n) (outside_of w n (shows drawers.now (name n))) }
{
    match frames.bound(n) {
        Some(item) => Some(item_value(scene, item)),
        None => outside(scene, drawers, n),
    }
}

fn looped<'a>(of: Option<Loop>) -> Option<Met<'a>>
    ensures { result ≡ option_map met.Loop of }
{
    Some(Met::Loop(of?))
}

fn valued<'a>(value: Option<Value<&'a [u8]>>) -> Option<Met<'a>>
    ensures { result ≡ option_map met.Value value.entry }
{
    Some(Met::Value(value?))
}

// What a path begins at: a loop object, or a name.
fn find<'a>(scene: Scene<'a>, frames: &Frames, drawers: &'a Drawers, head: Head) -> Option<Met<'a>>
    ensures { Found scene.entry frames.now (shows drawers.now) head result }
{
    match head {
        Head::Forloop => looped(frames.nearest_for()),
        Head::Tablerowloop => looped(frames.nearest_table()),
        Head::Name(n) => valued(named(scene, frames, drawers, n)),
    }
}

// The value of a literal; a path is none.
fn literal<'a>(book: Book<'a>, value: Expr) -> Value<&'a [u8]>
    ensures { held_in result ≡ literal_of book.entry.source.now value }
{
    match value {
        Expr::Nil | Expr::Path(..) => Value::Nil,
        Expr::Boolean(b) => Value::Boolean(b),
        Expr::Number(n) => Value::Whole(n),
        Expr::Text(part) => Value::Text(part_in(book, part)),
    }
}

/// What a value comes to, if it is there.
pub fn reach<'a>(
    scene: Scene<'a>,
    frames: &Frames,
    drawers: &'a Drawers,
    value: Expr,
) -> Option<Met<'a>>
    ensures { Reached scene.entry frames.now (shows drawers.now) value result }
{
    match value {
        Expr::Path(head, steps) => {
            let met = find(scene, frames, drawers, head)?;
            walk(scene, frames, met, entries(scene.book.steps, steps))
        }
        _ => Some(Met::Value(literal(scene.book, value))),
    }
}

// The value that was met.
fn needed<'a>(met: Option<Met<'a>>) -> Result<Value<&'a [u8]>, Fault>
    ensures { result ≡ needed met.entry }
{
    match met {
        None => Err(Fault::Absent),
        Some(met) => match met {
            Met::Value(value) => Ok(value),
            Met::Loop(_) => Err(Fault::LoopObject),
        },
    }
}

/// What a value comes to; an absent value is a fault, and so is a loop object itself.
pub fn eval<'a>(
    scene: Scene<'a>,
    frames: &Frames,
    drawers: &'a Drawers,
    value: Expr,
) -> Result<Value<&'a [u8]>, Fault>
    ensures { Evaluated scene.entry frames.now (shows drawers.now) value result }
{
    needed(reach(scene, frames, drawers, value))
}

// The whole number that can be read from a value.
fn number_in(value: Value<&[u8]>) -> Option<i64>
    ensures { result ≡ number_of (held_in value.entry) }
{
    match value {
        Value::Whole(n) => Some(n),
        Value::Text(text) => read_whole(text),
        _ => None,
    }
}

/// The whole number that a value comes to; what is no whole number is a fault.
pub fn number(scene: Scene, frames: &Frames, drawers: &Drawers, value: Expr) -> Result<i64, Fault>
    ensures { NumberFound scene.entry frames.now (shows drawers.now) value result }
{
    let value = eval(scene, frames, drawers, value)?;
    number_in(value).ok_or(Fault::NoNumber)
}
