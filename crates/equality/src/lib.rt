//! When two values of a tray are equal.

#![tactic(auto)]

ghost use Rattle.std.specs.Prelude.{◌≡◌, ◌*◌};
ghost use Rattle.values.specs.Value.{equal as are_equal, equal_items, agrees as all_agree, within as all_in, empty};
ghost use Rattle.values.specs.Meaning.{value_of, text_at, count_of, items_from, entries_from, Below};
ghost use Rattle.equality.specs.Laws.{ObjectsAgree, EqualsItself, EqualEitherWay};

use tray::parts::same_text;
use tray::records::{Record, Span};
use tray::trays::Tray;
use values::finds::find_in;

// Whether each key of the entries is one of the others.
fn within(tray: &Tray, entries: Span, others: Span) -> bool
    ensures { result ≡ all_in (entries_from (text_at tray.now) (value_of tray.now) entries.first entries.count) (entries_from (text_at tray.now) (value_of tray.now) others.first others.count) }
{
    for j in 0..entries.count {
        if find_in(tray, others, tray.text_of(entries.key(j))).is_none() {
            return false;
        }
    }
    true
}

// Whether two records stand for equal values.
#[cycle(equal_values)]
fn equal_at(tray: &Tray, a: usize, b: usize) -> bool
    ensures { result ≡ are_equal (value_of tray.now a) (value_of tray.now b) }
{
    match (tray.record(a), tray.record(b)) {
        (Record::Nil, Record::Nil) => true,
        (Record::Boolean(x), Record::Boolean(y)) => x == y,
        (Record::Whole(x), Record::Whole(y)) => x == y,
        (Record::Text(_), Record::Text(_)) => same_text(tray.text_of(a), tray.text_of(b)),
        (Record::Array(s), Record::Array(t)) => equal_items(tray, a, s, t),
        (Record::Object(s), Record::Object(t)) => agrees(tray, a, s, t) && within(tray, t, s),
        _ => false,
    }
}

// `holder` holds the items s, and the recursion falls by it. As a ghost parameter it gets no proof in a cycle.
#[cycle(equal_values)]
fn equal_items(tray: &Tray, holder: usize, s: Span, t: Span) -> bool
    requires { Below holder s.first s.count (count_of tray.now) }
    ensures { result ≡ equal_items (items_from (value_of tray.now) s.first s.count) (items_from (value_of tray.now) t.first t.count) }
{
    if s.count != t.count {
        return false;
    }
    for j in 0..s.count {
        if !equal_at(tray, s.item(j), t.item(j)) {
            return false;
        }
    }
    true
}

// Whether each entry that no earlier one hides finds an equal value in the other object.
#[cycle(equal_values)]
fn agrees(tray: &Tray, holder: usize, s: Span, t: Span) -> bool
    requires { Below holder s.first (2 * s.count) (count_of tray.now) }
    ensures { result ≡ all_agree (entries_from (text_at tray.now) (value_of tray.now) s.first s.count) empty (entries_from (text_at tray.now) (value_of tray.now) t.first t.count) }
{
    for j in 0..s.count {
        let at = s.key(j);
        let key = tray.text_of(at);
        let earlier = Span {
            first: s.first,
            count: j,
        };
        if find_in(tray, earlier, key).is_none() {
            let Some(c) = find_in(tray, t, key) else {
                return false;
            };
            if !equal_at(tray, at + 1, c) {
                return false;
            }
        }
    }
    true
}

/// Whether two records of a tray, by number, stand for equal values.
pub fn equal(tray: &Tray, a: usize, b: usize) -> bool
    ensures value { result ≡ are_equal (value_of tray.now a) (value_of tray.now b) }
    ensures objects { ObjectsAgree }
    ensures itself { EqualsItself }
    ensures either { EqualEitherWay }
{
    equal_at(tray, a, b)
}
