//! A value sought among items, or as a key.
ghost use Rattle.std.specs.Prelude.{◌≡◌};
ghost use Rattle.numerals.specs.Decimal.{whole_text};
ghost use Rattle.values.specs.Meaning.{value_of, items_from};
ghost use Rattle.held.specs.Scenes.{host_of};
ghost use Rattle.held.specs.Value.{held_by};
ghost use Rattle.meaning.specs.Things.{object};
ghost use Rattle.meaning.specs.Hosts.{value_of as tree_of};
ghost use Rattle.meaning.specs.Looking.{World};
ghost use Rattle.meaning.specs.Tests.{among, has_key, in_items, in_keys};
ghost use Rattle.comparisons.specs.Members.{members, equal_in};

use crate::forms::{Form, Items, form_of};
use crate::plain::{boolean_text, lay_number};
use crate::same::same;
use held::value::Value;
use rows::row::Row;
use rows::search::{Equality, first_match};
use tray::trays::Tray;
use values::finds::find;

// Items as values in a tray. Each is given as an array: which kind it has, its record says.
#[derive(Clone, Copy)]
struct Members<'a> {
    tray: &'a Tray<'a>,
    items: Items,
}

impl<'a> Row for Members<'a> {
    type Item = Value<&'a [u8]>;

    ghost items = { λ m. members m.items.first m.items.count };

    fn count(&self) -> usize {
        self.items.count
    }

    fn item(&self, k: usize) -> Option<Value<&'a [u8]>> {
        if k < self.items.count {
            Some(Value::Array(self.items.item(k)))
        } else {
            None
        }
    }
}

impl<'a> Equality<Value<&'a [u8]>> for Members<'a> {
    ghost equals = { λ m. equal_in m.tray.now };

    fn same(&self, a: &Value<&'a [u8]>, b: &Value<&'a [u8]>) -> bool {
        same(self.tray, *a, *b)
    }
}

// Whether one of the items equals the value. Each is compared as what its record holds, of whatever kind that is.
fn among(tray: &Tray, items: Items, sought: Value<&[u8]>) -> bool
    ensures { result ≡ among (tree_of (host_of tray.now) (held_by (λ t. t.now) sought.entry)) (items_from (value_of tray.now) items.first items.count) }
{
    let members = Members { tray, items };
    first_match(&members, &members, &sought).is_some()
}

// Whether the value is an array that has an equal one in it. Nil is never found.
pub(crate) fn in_items(tray: &Tray, whole: Value<&[u8]>, sought: Value<&[u8]>) -> bool
    ensures { (w : World) → w.host ≡ host_of tray.now → result ≡ in_items w (held_by (λ t. t.now) whole.entry) (held_by (λ t. t.now) sought.entry) }
{
    if matches!(sought, Value::Nil) {
        return false;
    }
    let Form::Array(items) = form_of(tray, whole) else {
        return false;
    };
    among(tray, items, sought)
}

// Whether record i is an object that has the key.
fn has_key(tray: &Tray, i: usize, key: &[u8]) -> bool
    ensures { result ≡ has_key key.now (value_of tray.now i) }
{
    find(tray, i, key).is_some()
}

// Whether record i is an object that has the text of a number as a key.
fn has_number(tray: &Tray, i: usize, n: i64) -> bool
    ensures { result ≡ has_key (whole_text n) (value_of tray.now i) }
{
    let mut room = [0; 20];
    let len = lay_number(n, &mut room);
    has_key(tray, i, &room[..len])
}

// Whether record i is an object that has the text of a text, number or boolean as a key.
pub(crate) fn in_keys(tray: &Tray, i: usize, sought: Value<&[u8]>) -> bool
    ensures { (w : World) → w.host ≡ host_of tray.now → result ≡ in_keys w (object i) (held_by (λ t. t.now) sought.entry) }
{
    match sought {
        Value::Boolean(b) => has_key(tray, i, boolean_text(b)),
        Value::Whole(n) => has_number(tray, i, n),
        Value::Text(t) => has_key(tray, i, t),
        _ => false,
    }
}
