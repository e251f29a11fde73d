//! Steps into a value.
ghost use Rattle.std.specs.Prelude.{◌≡◌};
ghost use Rattle.std.specs.Option.{option_map};
ghost use Rattle.tray.specs.Records.{record_of};
ghost use Rattle.values.specs.Meaning.{value_of, text_at};
ghost use Rattle.values.specs.Steps.{step_text, stepped};
ghost use Rattle.values.specs.Numbers.{place_of, item_found, item_named_found, among_items, among_entries, followed};
ghost use Rattle.values.specs.Found.{found_by, step_of};

use crate::finds::find_in;
use itoa::Buffer;
use tray::parts::same_text;
use tray::records::{Record, Span};
use tray::trays::Tray;

/// One step of a path: a number, or a name or key.
#[derive(Clone, Copy, Debug, PartialEq, Eq)]
pub enum Step<'a> {
    Number(i64),
    Name(&'a [u8]),
}

/// Where a step comes to: a record, or how many records there are.
#[derive(Clone, Copy, Debug, PartialEq, Eq)]
pub enum Found {
    Record(usize),
    Size(u16),
}

// The place of an index from 0, or of a negative one from the end, among `count`.
fn place(count: u16, z: i64) -> Option<u16>
    ensures { result ≡ place_of count z }
{
    let n = i64::from(count);
    let k = if z < 0 { n + z } else { z };
    (0 <= k && k < n).then(|| k as u16)
}

fn item(items: Span, z: i64) -> Option<Found>
    ensures { result ≡ item_found items.first items.count z }
{
    place(items.count, z).map(|k| Found::Record(items.item(k)))
}

#[tactic(auto, using(tray::proofs::Same::same_reads, std::proofs::lemmas::Bool::Decides::nat_tests))]
fn item_named(items: Span, name: &[u8]) -> Option<Found>
    ensures { result ≡ item_named_found items.first items.count name.now }
{
    match name {
        b"first" => item(items, 0),
        b"last" => item(items, -1),
        b"size" => Some(Found::Size(items.count)),
        _ => None,
    }
}

/// Where a step into an array of these items comes to, if it comes anywhere.
pub fn into_items(items: Span, step: Step) -> Option<Found>
    ensures { result ≡ among_items items.first items.count (step_of step.entry) }
{
    match step {
        Step::Number(z) => item(items, z),
        Step::Name(name) => item_named(items, name),
    }
}

fn entry_named(tray: &Tray, entries: Span, name: &[u8]) -> Option<Found>
    ensures { result ≡ among_entries (text_at tray.now) entries.first entries.count name.now }
{
    if let Some(i) = find_in(tray, entries, name) {
        return Some(Found::Record(i));
    }
    same_text(name, b"size").then_some(Found::Size(entries.count))
}

fn into_entries(tray: &Tray, entries: Span, step: Step) -> Option<Found>
    ensures { result ≡ among_entries (text_at tray.now) entries.first entries.count (step_text (step_of step.entry)) }
{
    match step {
        Step::Number(z) => {
            let mut digits = Buffer::new();
            entry_named(tray, entries, digits.format(z).as_bytes())
        }
        Step::Name(name) => entry_named(tray, entries, name),
    }
}

/// Where a step from the record i comes to, if it comes anywhere.
pub fn follow(tray: &Tray, i: usize, step: Step) -> Option<Found>
    ensures number { result ≡ followed (text_at tray.now) (record_of tray.now i) (step_of step.entry) }
    ensures value { option_map (found_by (value_of tray.now)) result ≡ stepped (value_of tray.now i) (step_of step.entry) }
{
    match tray.record(i) {
        Record::Array(items) => into_items(items, step),
        Record::Object(entries) => into_entries(tray, entries, step),
        _ => None,
    }
}
