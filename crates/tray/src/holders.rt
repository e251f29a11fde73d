ghost use Rattle.std.specs.Prelude.{◌≡◌, ℕ, ◌+◌, ◌-◌, ◌*◌, ◌^◌, ◌<◌, ◌≤◌, true, false, ◌⊎◌, length, Decides, MatchBool, slice_index_or};
ghost use Rattle.tray.specs.Sound.{first_of, width_of, at as record_at, is_text, Took, Barred, HeldOnce, KeysText, Keyed};

use crate::records::{Record, Span};
use std::ops::Range;

impl Record {
    /// The numbers of the records that it holds.
    pub fn holds(self) -> Range<usize>
        ensures first { result.start ≡ first_of self }
        ensures end { result.end ≡ first_of self + width_of self }
    {
        match self {
            Record::Array(s) => s.item(0)..s.item(s.count),
            Record::Object(s) => s.key(0)..s.key(s.count),
            _ => 0..0,
        }
    }

    pub(crate) fn is_text(self) -> bool
        ensures { result ≡ is_text self }
    {
        matches!(self, Record::Text(_))
    }
}

// Marks the records that h holds, if they stand behind it and none is held yet.
fn hold(held: &mut [bool], h: usize, records: Range<usize>) -> bool
    requires { records.start ≤ records.end }
    ensures { MatchBool result (Took h records.start (records.end - records.start) held.old held.new) (Barred h records.start (records.end - records.start) held.old) }
{
    // By numbers: where there are none, they may begin past the marks, and no slice can be cut.
    for c in records {
        if c <= h || c >= held.len() || held[c] {
            return false;
        }
        held[c] = true;
    }
    true
}

// Whether each record is held at most once, by one before it.
pub(crate) fn held_once(records: &[Record], held: &mut [bool]) -> bool
    requires long { length held.old ≡ length records.now }
    requires none { (c : ℕ) → slice_index_or held.old c false ≡ false }
    ensures { Decides result (HeldOnce records.now) }
{
    for (h, record) in records.iter().enumerate() {
        if !hold(held, h, record.holds()) {
            return false;
        }
    }
    true
}

// Whether the keys of an object are texts.
fn keys_at(records: &[Record], entries: Span) -> bool
    requires { 0 < entries.count → entries.first + 2 * entries.count ≤ length records.now }
    ensures { Decides result (Keyed records.now entries.first entries.count) }
{
    // By numbers: where there are no entries, the span may begin past the end, and no slice can be cut.
    for j in 0..entries.count {
        if !records[entries.key(j)].is_text() {
            return false;
        }
    }
    true
}

pub(crate) fn keys_text(records: &[Record]) -> bool
    requires { HeldOnce records.now }
    ensures { Decides result (KeysText records.now) }
{
    for record in records {
        if let Record::Object(entries) = *record {
            if !keys_at(records, entries) {
                return false;
            }
        }
    }
    true
}
