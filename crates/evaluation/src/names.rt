// What a name of the sheet means outside the frames.
ghost use Rattle.std.specs.Prelude.{◌≡◌, [], slice_index_or};
ghost use Rattle.std.specs.Option.{option_map};
ghost use Rattle.drawers.specs.Shown.{shows};
ghost use Rattle.nodes.specs.Books.{names_in, spelled as part_of};
ghost use Rattle.held.specs.Records.{held_in};
ghost use Rattle.held.specs.Scenes.{Fits};
ghost use Rattle.meaning.specs.Looking.{World, spelling, outside};
ghost use Rattle.meaning.specs.Things.{name};

use drawers::kept::lend;
use drawers::things::Drawers;
use held::records::{host_value, read_again};
use held::scenes::Scene;
use held::value::Value;
use nodes::book::Book;
use nodes::exprs::Part;
use tray::parts::cut;

/// The bytes of a part of the source.
pub fn part_in<'a>(book: Book<'a>, part: Part) -> &'a [u8]
    ensures { result.now ≡ part_of book.entry.source.now part }
{
    cut(book.source, part.place, part.len)
}

// The bytes of a name; of a number that is none, no bytes.
fn spelled<'a>(book: Book<'a>, n: usize) -> &'a [u8]
    ensures { result.now ≡ slice_index_or (names_in book.entry) n [] }
{
    match book.names.get(n) {
        Some(part) => part_in(book, *part),
        None => &[],
    }
}

/// The variable of a name, else the host name, else the counter.
pub(crate) fn outside<'a>(
    scene: Scene<'a>,
    drawers: &'a Drawers,
    n: usize,
) -> Option<Value<&'a [u8]>>
    ensures { (w : World) → Fits w scene.entry → option_map held_in result ≡ outside w n (shows drawers.now (name n)) }
{
    if let Some(kept) = drawers.variable(n) {
        return Some(read_again(scene.tray, lend(kept)));
    }
    if let Some(value) = host_value(scene.tray, spelled(scene.book, n)) {
        return Some(value);
    }
    let count = drawers.counter(n)?;
    Some(Value::Whole(count))
}
