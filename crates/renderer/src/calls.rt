// Calls on a sheet.
ghost use Rattle.std.specs.Prelude.{◌≡◌, ◌≤◌, Some, length};
ghost use Rattle.std.specs.Option.{option_map};
ghost use Rattle.drawers.specs.Shown.{shows};
ghost use Rattle.held.specs.Records.{held_in};
ghost use Rattle.meaning.specs.Calls.{held_datum};
ghost use Rattle.nodes.specs.Books.{names_in};
ghost use Rattle.held.specs.Scenes.{host_of, pool_of};
ghost use Rattle.meaning.specs.Order.{OrderFree};
ghost use Rattle.nodes.specs.Trees.{tree_at};
ghost use Rattle.tree.specs.Elements.{Tree};
ghost use Rattle.renderer.specs.Acts.{world};
ghost use Rattle.renderer.specs.Leaves.{Few};
ghost use Rattle.renderer.specs.Calls.{number_of, datum_of, named, PutDone, PageDone, Rendered};

use crate::machine::running::run_to_end;
use banks::bank::Bank;
use drawers::kept::keep;
use drawers::things::Drawers;
use evaluation::names::part_in;
use frames::frame::TrailRecord;
use frames::trail::blank_trail;
use held::faults::Fault;
use held::scenes::Scene;
use held::value::Value;
use nodes::book::Book;
use pages::cuts::zero_rest;
use sheet::sheet::Sheet;
use tray::names::is_reserved;
use tray::parts::same_text;
use tray::trays::Tray;

// How many records a trail must have.
const RECORDS: usize = 16;

/// What `put` makes the variable of a name.
#[derive(Clone, Copy)]
pub enum Datum<'a> {
    Nil,
    Boolean(bool),
    Whole(i64),
    Text(&'a [u8]),
}

/// Why a call is refused, and nothing has changed.
#[derive(Clone, Copy, Debug, PartialEq, Eq)]
pub enum Refused {
    /// `put`: the name is not in the sheet, or is reserved, or the text has over 256 bytes.
    NotPut,
    /// `render`: there is no such template, or the trail has fewer than sixteen records.
    NotRendered,
}

/// A fault, and the place of its element.
#[derive(Clone, Copy, Debug, PartialEq, Eq)]
pub struct Faulted {
    pub fault: Fault,
    pub place: usize,
}

impl Refused {
    /// The number of the refusal.
    pub fn number(self) -> u8
        ensures { result ≡ number_of self }
    {
        match self {
            Refused::NotPut => 11,
            Refused::NotRendered => 12,
        }
    }
}

impl<'a> Datum<'a> {
    fn value(self) -> Value<&'a [u8]>
        ensures { held_in result ≡ held_datum (datum_of self.entry) }
    {
        match self {
            Datum::Nil => Value::Nil,
            Datum::Boolean(b) => Value::Boolean(b),
            Datum::Whole(n) => Value::Whole(n),
            Datum::Text(text) => Value::Text(text),
        }
    }
}

// The number of a name of the sheet; a reserved name has none.
fn name_number(book: Book, name: &[u8]) -> Option<usize>
    ensures { result ≡ named (names_in book.entry) name.now }
{
    if is_reserved(name) {
        return None;
    }
    book.names
        .iter()
        .position(|part| same_text(name, part_in(book, *part)))
}

/// Makes a value the variable of a name of the sheet, as the call of the definition.
pub fn put(sheet: &Sheet, drawers: &mut Drawers, name: &[u8], datum: Datum) -> Result<(), Refused>
    ensures { PutDone sheet.now name.now (datum_of datum.entry) (shows drawers.old) (shows drawers.new) result }
{
    let n = name_number(sheet.book(), name).ok_or(Refused::NotPut)?;
    let value = keep(datum.value()).ok_or(Refused::NotPut)?;
    drawers.set_variable(n, value);
    Ok(())
}

/// Renders a template of the sheet with a tray and a bank, as the call of the definition: into the buffer, whose rest is zeros, and after a fault with the trail of its blocks.
/// Calls may be made in any order that keeps the order of those that clash.
pub fn render<B: Bank>(
    sheet: &Sheet,
    number: usize,
    tray: &Tray,
    drawers: &mut Drawers,
    bank: &mut B,
    out: &mut [u8],
    trail: &mut [TrailRecord],
) -> Result<Option<Faulted>, Refused>
    ensures done { PageDone sheet.now (B.Bank.meaning bank.old) number (host_of tray.now) (shows drawers.old) (shows drawers.new) out.old out.new trail.old trail.new result }
    ensures same { B.Bank.meaning bank.new ≡ B.Bank.meaning bank.old }
    ensures order { OrderFree }
{
    let template = sheet.template(number).ok_or(Refused::NotRendered)?;
    if trail.len() < RECORDS {
        return Err(Refused::NotRendered);
    }
    let scene = Scene {
        book: sheet.book(),
        tray,
    };
    Ok(render_nodes(
        scene,
        template.from,
        template.end,
        drawers,
        bank,
        out,
        trail,
    ))
}

// Renders the template whose nodes are those from one up to another.
fn render_nodes<B: Bank>(
    scene: Scene,
    from: usize,
    end: usize,
    drawers: &mut Drawers,
    bank: &mut B,
    out: &mut [u8],
    trail: &mut [TrailRecord],
) -> Option<Faulted>
    ensures done { (t : Tree) → tree_at (pool_of scene.entry) scene.entry.book.nodes.now from end ≡ Some t → Few scene.entry → 16 ≤ length trail.old → Rendered (world scene.entry (B.Bank.meaning bank.old) (length out.old)) t (shows drawers.old) (shows drawers.new) out.old out.new trail.old trail.new result }
    ensures same { B.Bank.meaning bank.new ≡ B.Bank.meaning bank.old }
{
    match run_to_end(scene, drawers, bank, from, end, out, trail) {
        Ok(filled) => {
            zero_rest(out, filled);
            blank_trail(trail);
            None
        }
        Err(failure) => {
            zero_rest(out, failure.filled);
            Some(Faulted {
                fault: failure.fault,
                place: failure.place,
            })
        }
    }
}
