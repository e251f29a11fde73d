//! Whether a value has another in it.
ghost use Rattle.std.specs.Prelude.{◌≡◌, MatchOption};
ghost use Rattle.numerals.specs.Decimal.{whole_text};
ghost use Rattle.values.specs.Value.{written};
ghost use Rattle.values.specs.Meaning.{value_of};
ghost use Rattle.values.specs.RowsOf.{pair_value};
ghost use Rattle.texts.specs.Written.{Laid};
ghost use Rattle.held.specs.Scenes.{host_of};
ghost use Rattle.held.specs.Value.{held_by};
ghost use Rattle.meaning.specs.Things.{Held, whole as number};
ghost use Rattle.meaning.specs.Looking.{World, text_of};
ghost use Rattle.meaning.specs.Tests.{stands_in, in_text, holding};
ghost use Rattle.comparisons.specs.Ends.{Ends, OneLaid, sought_in};

use crate::forms::Items;
use crate::members::{in_items, in_keys};
use crate::plain::{boolean_text, lay_number};
use crate::search::stands_in;
use held::faults::Fault;
use held::value::Value;
use texts::write::write_text;
use tray::trays::Tray;

// How many bytes the text of an array, object or pair may have that is sought.
const LONGEST: usize = 256;

// Whether the text of a number stands in another.
fn number_in(n: i64, text: &[u8]) -> bool
    ensures { result ≡ stands_in (whole_text n) text.now }
{
    let mut room = [0; 20];
    let len = lay_number(n, &mut room);
    stands_in(&room[..len], text)
}

// Whether the text of record i stands in another.
fn record_in(tray: &Tray, i: usize, text: &[u8]) -> Result<bool, Fault>
    ensures { result ≡ sought_in (written (value_of tray.now i)) text.now }
{
    let mut room = [0; LONGEST];
    let end = write_text(tray, i, &mut room).ok_or(Fault::TooLong)?;
    Ok(stands_in(&room[..end], text))
}

// Lays the text of a pair at the front of a buffer, that of its key and then that of its value, and answers its length;
// nothing where the buffer is shorter.
fn lay_pair(tray: &Tray, i: usize, out: &mut [u8]) -> Option<usize>
    ensures { MatchOption result (OneLaid (written (value_of tray.now i)) (written (pair_value tray.now i)) out.old out.new) (λ end. Laid (written (pair_value tray.now i)) out.old out.new end) }
{
    let key = write_text(tray, i, out)?;
    let value = write_text(tray, Items::pair(i).item(1), &mut out[key..])?;
    Some(key + value)
}

// Whether the text of the pair whose key is record i does.
fn pair_in(tray: &Tray, i: usize, text: &[u8]) -> Result<bool, Fault>
    ensures { result ≡ sought_in (written (pair_value tray.now i)) text.now }
{
    let mut room = [0; LONGEST];
    let end = lay_pair(tray, i, &mut room).ok_or(Fault::TooLong)?;
    Ok(stands_in(&room[..end], text))
}

// Whether the text of a value stands in the text of another. Nil is never found.
fn in_text(tray: &Tray, text: &[u8], sought: Value<&[u8]>) -> Result<bool, Fault>
    ensures { (w : World) → w.host ≡ host_of tray.now → (a : Held) → text_of w a ≡ text.now → Ends (in_text w a (held_by (λ t. t.now) sought.entry)) result }
{
    match sought {
        Value::Nil => Ok(false),
        Value::Boolean(b) => Ok(stands_in(boolean_text(b), text)),
        Value::Whole(n) => Ok(number_in(n, text)),
        Value::Text(t) => Ok(stands_in(t, text)),
        Value::Array(i) => record_in(tray, i, text),
        Value::Object(i) => record_in(tray, i, text),
        Value::Pair(i) => pair_in(tray, i, text),
    }
}

// Whether the text of a value stands in that of a number.
fn in_number(tray: &Tray, n: i64, sought: Value<&[u8]>) -> Result<bool, Fault>
    ensures { (w : World) → w.host ≡ host_of tray.now → Ends (in_text w (number n) (held_by (λ t. t.now) sought.entry)) result }
{
    let mut room = [0; 20];
    let len = lay_number(n, &mut room);
    in_text(tray, &room[..len], sought)
}

// Whether a value has another in it: a text has the texts that stand in it, an array its items, an object its keys.
pub(crate) fn contains(
    tray: &Tray,
    whole: Value<&[u8]>,
    sought: Value<&[u8]>,
) -> Result<bool, Fault>
    ensures { (w : World) → w.host ≡ host_of tray.now → Ends (holding w (held_by (λ t. t.now) whole.entry) (held_by (λ t. t.now) sought.entry)) result }
{
    match whole {
        Value::Nil => Err(Fault::InNil),
        Value::Boolean(b) => in_text(tray, boolean_text(b), sought),
        Value::Whole(n) => in_number(tray, n, sought),
        Value::Text(t) => in_text(tray, t, sought),
        Value::Array(_) | Value::Pair(_) => Ok(in_items(tray, whole, sought)),
        Value::Object(i) => Ok(in_keys(tray, i, sought)),
    }
}
