//! What a value is made of.
ghost use Rattle.std.specs.Prelude.{◌≡◌, ◌+◌};
ghost use Rattle.held.specs.Scenes.{host_of};
ghost use Rattle.held.specs.Value.{held_by};
ghost use Rattle.values.specs.Meaning.{value_of};
ghost use Rattle.meaning.specs.Hosts.{value_of as tree_of};
ghost use Rattle.tray.specs.declared.trays.Tray.{Tray};
ghost use Rattle.comparisons.specs.Forms.{pair_from, Means};
ghost use Rattle.comparisons.specs.Members.{number_in};

use held::value::Value;
use tray::records::Record;
use tray::trays::Tray;

// Items that are records, one after another: the number of the first, and how many.
#[derive(Clone, Copy)]
pub(crate) struct Items {
    pub(crate) first: usize,
    pub(crate) count: usize,
}

impl Items {
    // A key and its value.
    pub(crate) fn pair(i: usize) -> Items
        ensures { result ≡ pair_from i }
    {
        Items { first: i, count: 2 }
    }

    // The record of item `j`. Past the end of a tray all records are nil, and so it does not matter which one it is there.
    pub(crate) fn item(self, j: usize) -> usize
        ensures number { result ≡ number_in self.first j }
        ensures value { (t : Tray) → value_of t result ≡ value_of t (self.first + j) }
    {
        self.first.saturating_add(j)
    }
}

// A value by its kind. Of an array or object, which are given by number, the kind is that of the record.
#[derive(Clone, Copy)]
pub(crate) enum Form<'a> {
    Nil,
    Boolean(bool),
    Whole(i64),
    Text(&'a [u8]),
    Array(Items),
    Object(usize),
}

// The form of record i.
fn record_form<'a>(tray: &Tray<'a>, i: usize) -> Form<'a>
    ensures { Means tray.now result (value_of tray.now i) }
{
    match tray.record(i) {
        Record::Nil => Form::Nil,
        Record::Boolean(b) => Form::Boolean(b),
        Record::Whole(n) => Form::Whole(n),
        Record::Text(_) => Form::Text(tray.text_of(i)),
        Record::Array(s) => Form::Array(Items {
            first: s.first as usize,
            count: s.count as usize,
        }),
        Record::Object(_) => Form::Object(i),
    }
}

// The form of a value. A pair is an array of two.
pub(crate) fn form_of<'a>(tray: &Tray<'a>, value: Value<&'a [u8]>) -> Form<'a>
    ensures { Means tray.now result (tree_of (host_of tray.now) (held_by (λ t. t.now) value.entry)) }
{
    match value {
        Value::Nil => Form::Nil,
        Value::Boolean(b) => Form::Boolean(b),
        Value::Whole(n) => Form::Whole(n),
        Value::Text(t) => Form::Text(t),
        Value::Array(i) | Value::Object(i) => record_form(tray, i),
        Value::Pair(i) => Form::Array(Items::pair(i)),
    }
}
