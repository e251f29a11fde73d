//! When two values are equal.
ghost use Rattle.std.specs.Prelude.{◌≡◌};
ghost use Rattle.values.specs.Value.{equal as are_equal, equal_items, Value as Tree};
ghost use Rattle.values.specs.Meaning.{value_of, items_from};
ghost use Rattle.held.specs.Scenes.{host_of};
ghost use Rattle.held.specs.Value.{held_by};
ghost use Rattle.meaning.specs.Looking.{World};
ghost use Rattle.meaning.specs.Tests.{same as are_same};
ghost use Rattle.comparisons.specs.Forms.{Means};

use crate::forms::{Form, Items, form_of};
use equality::equal;
use held::value::Value;
use tray::parts::same_text;
use tray::trays::Tray;

// Whether items are equal one by one.
fn equal_items(tray: &Tray, a: Items, b: Items) -> bool
    ensures { result ≡ equal_items (items_from (value_of tray.now) a.first a.count) (items_from (value_of tray.now) b.first b.count) }
{
    if a.count != b.count {
        return false;
    }
    for j in 0..a.count {
        if !equal(tray, a.item(j), b.item(j)) {
            return false;
        }
    }
    true
}

// Whether the values of two forms are equal.
fn equal_forms(tray: &Tray, a: Form, b: Form) -> bool
    ensures { (v w : Tree) → Means tray.now a.entry v → Means tray.now b.entry w → result ≡ are_equal v w }
{
    match (a, b) {
        (Form::Nil, Form::Nil) => true,
        (Form::Boolean(x), Form::Boolean(y)) => x == y,
        (Form::Whole(x), Form::Whole(y)) => x == y,
        (Form::Text(s), Form::Text(t)) => same_text(s, t),
        (Form::Array(s), Form::Array(t)) => equal_items(tray, s, t),
        (Form::Object(i), Form::Object(j)) => equal(tray, i, j),
        _ => false,
    }
}

/// Whether two values are equal.
pub fn same(tray: &Tray, a: Value<&[u8]>, b: Value<&[u8]>) -> bool
    ensures { (w : World) → w.host ≡ host_of tray.now → result ≡ are_same w (held_by (λ t. t.now) a.entry) (held_by (λ t. t.now) b.entry) }
{
    equal_forms(tray, form_of(tray, a), form_of(tray, b))
}
