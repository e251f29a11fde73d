// Records of the tray as values, and steps into values.
ghost use Rattle.std.specs.Prelude.{◌≡◌, ◌+◌, length, nat_lt, Some};
ghost use Rattle.std.specs.Option.{option_map};
ghost use Rattle.tray.specs.Records.{record_of};
ghost use Rattle.held.specs.Scenes.{host_of};
ghost use Rattle.meaning.specs.Hosts.{record_at, read_again, host_name, step_into_items, step_into_record, stepped};
ghost use Rattle.held.specs.Records.{held_in, step_into, found_held};

use crate::value::Value;
use tray::records::{Record, Span};
use tray::trays::Tray;
use values::finds::find;
use values::steps::{Found, Step, follow, into_items};

/// A record of the tray as a value.
pub fn record_value<'a>(tray: &Tray<'a>, i: usize) -> Value<&'a [u8]>
    ensures { held_in result ≡ record_at (host_of tray.now) i }
{
    match tray.record(i) {
        Record::Nil => Value::Nil,
        Record::Boolean(b) => Value::Boolean(b),
        Record::Whole(z) => Value::Whole(z),
        Record::Text(_) => Value::Text(tray.text_of(i)),
        Record::Array(_) => Value::Array(i),
        Record::Object(_) => Value::Object(i),
    }
}

// The record that stands `k` behind record i.
fn record_behind<'a>(tray: &Tray<'a>, i: usize, k: usize) -> Value<&'a [u8]>
    ensures { held_in result ≡ record_at (host_of tray.now) (i + k) }
{
    match i.checked_add(k) {
        Some(n) => record_value(tray, n),
        None => Value::Nil,
    }
}

// Whether a record stands behind record i.
fn has_next(tray: &Tray, i: usize) -> bool
    ensures { result ≡ nat_lt (i + 1) (length tray.now.records.items) }
{
    i < tray.count() && i + 1 < tray.count()
}

/// A value that may have been kept from another tray: nil unless records of its kind are there.
pub fn read_again<'a>(tray: &Tray, value: Value<&'a [u8]>) -> Value<&'a [u8]>
    ensures { held_in result ≡ read_again (host_of tray.now) (held_in value.entry) }
{
    let there = match value {
        Value::Array(i) => matches!(tray.record(i), Record::Array(_)),
        Value::Object(i) => matches!(tray.record(i), Record::Object(_)),
        Value::Pair(i) => matches!(tray.record(i), Record::Text(_)) && has_next(tray, i),
        _ => true,
    };
    if there { value } else { Value::Nil }
}

/// What a host name means: the value of that key of record 0.
pub fn host_value<'a>(tray: &Tray<'a>, name: &[u8]) -> Option<Value<&'a [u8]>>
    ensures { option_map held_in result ≡ host_name (host_of tray.now) name.now }
{
    let i = find(tray, 0, name)?;
    Some(record_value(tray, i))
}

// What a step found.
fn found_value<'a>(tray: &Tray<'a>, found: Found) -> Value<&'a [u8]>
    ensures { held_in result ≡ found_held (host_of tray.now) found }
{
    match found {
        Found::Record(i) => record_value(tray, i),
        Found::Size(n) => Value::Whole(i64::from(n)),
    }
}

// The two records of a pair.
const PAIR: Span = Span { first: 0, count: 2 };

// What a step into the pair whose key is record i comes to.
#[tactic(auto, using(crate::proofs::Finding::pair_stepped))]
fn into_pair<'a>(tray: &Tray<'a>, i: usize, step: Step) -> Option<Value<&'a [u8]>>
    ensures { option_map held_in result ≡ step_into_items (host_of tray.now) i 2 (step_into step.entry) }
{
    match into_items(PAIR, step)? {
        Found::Record(k) => Some(record_behind(tray, i, k)),
        Found::Size(n) => Some(Value::Whole(i64::from(n))),
    }
}

// What a step into record i comes to.
fn into_record<'a>(tray: &Tray<'a>, i: usize, step: Step) -> Option<Value<&'a [u8]>>
    ensures { option_map held_in result ≡ step_into_record (host_of tray.now) (record_of tray.now i) (step_into step.entry) }
{
    let found = follow(tray, i, step)?;
    Some(found_value(tray, found))
}

/// What a step into a value comes to, if it comes anywhere.
pub fn into_value<'a>(tray: &Tray<'a>, value: Value<&[u8]>, step: Step) -> Option<Value<&'a [u8]>>
    ensures { option_map held_in result ≡ stepped (host_of tray.now) (held_in value.entry) (step_into step.entry) }
{
    match value {
        Value::Array(i) | Value::Object(i) => into_record(tray, i, step),
        Value::Pair(i) => into_pair(tray, i, step),
        _ => None,
    }
}
