// `{% increment name %}` and `{% decrement name %}`.
ghost use Rattle.std.specs.Prelude.{◌≡◌, ◌+ℤ◌, ◌-ℤ◌, pos, Some};
ghost use Rattle.banks.specs.Meaning.{Meaning};
ghost use Rattle.drawers.specs.Shown.{shows};
ghost use Rattle.frames.specs.declared.stack.Frames as table;
ghost use Rattle.held.specs.declared.scenes.Scene.{Scene};
ghost use Rattle.meaning.specs.Leaves.{count_of};
ghost use Rattle.meaning.specs.Things.{name};
ghost use Rattle.numerals.specs.Decimal.{if_fits};
ghost use Rattle.nodes.specs.declared.table.Leaf.TheVariants.{Increment, Decrement};
ghost use Rattle.renderer.specs.Leaves.{LeafDone, Counted};

use drawers::things::Drawers;
use held::faults::Fault;
use pages::write::write_number;

// A counter that is not there counts as 0.
fn count(drawers: &Drawers, n: usize) -> i64
    ensures { result ≡ count_of (shows drawers.now (name n)) }
{
    drawers.counter(n).unwrap_or(0)
}

// One more, where that has 64 bits.
fn one_more(count: i64) -> Option<i64>
    ensures { result ≡ if_fits (Some (count +ℤ pos 1)) }
{
    count.checked_add(1)
}

// One less, where that has 64 bits.
fn one_less(count: i64) -> Option<i64>
    ensures { result ≡ if_fits (Some (count -ℤ pos 1)) }
{
    count.checked_sub(1)
}

// Writes a number, and then stores the next one.
fn count_on(
    drawers: &mut Drawers,
    target: usize,
    shown: i64,
    next: i64,
    out: &mut [u8],
    filled: usize,
) -> Result<usize, Fault>
    ensures { Counted target shown next (shows drawers.old) (shows drawers.new) filled out.old out.new result }
{
    let end = write_number(shown, out, filled)?;
    drawers.set_counter(target, next);
    Ok(end)
}

/// Writes the counter, and adds one to it; a counter that would leave 64 bits is a fault.
pub(crate) fn increment(
    drawers: &mut Drawers,
    target: usize,
    out: &mut [u8],
    filled: usize,
) -> Result<usize, Fault>
    ensures { (s : Scene) (fs : table.Frames) (m : Meaning) → LeafDone s fs m (shows drawers.old) (shows drawers.new) filled out.old out.new result (Increment target) }
{
    let shown = count(drawers, target);
    let next = one_more(shown).ok_or(Fault::FullCounter)?;
    count_on(drawers, target, shown, next, out, filled)
}

/// Takes one off the counter, and writes it; a counter that would leave 64 bits is a fault.
pub(crate) fn decrement(
    drawers: &mut Drawers,
    target: usize,
    out: &mut [u8],
    filled: usize,
) -> Result<usize, Fault>
    ensures { (s : Scene) (fs : table.Frames) (m : Meaning) → LeafDone s fs m (shows drawers.old) (shows drawers.new) filled out.old out.new result (Decrement target) }
{
    let next = one_less(count(drawers, target)).ok_or(Fault::FullCounter)?;
    count_on(drawers, target, next, next, out, filled)
}
