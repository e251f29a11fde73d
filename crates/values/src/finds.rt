//! The value that an object has under a key.
ghost use Rattle.std.specs.Prelude.{◌≡◌, ◌+◌, ◌*◌, ◌<◌, IfSome};
ghost use Rattle.std.specs.Option.{option_map};
ghost use Rattle.values.specs.Value.{find as find_in};
ghost use Rattle.tray.specs.Records.{record_of};
ghost use Rattle.values.specs.Steps.{member};
ghost use Rattle.values.specs.Numbers.{entry_number, member_number};
ghost use Rattle.values.specs.Meaning.{value_of, text_at, entries_from};

use tray::parts::same_text;
use tray::records::{Record, Span};
use tray::trays::Tray;

/// The value of the first of the entries with the key, by number.
pub fn find_in(tray: &Tray, entries: Span, key: &[u8]) -> Option<usize>
    ensures number { result ≡ entry_number (text_at tray.now) key.now entries.first entries.count }
    ensures value { option_map (value_of tray.now) result ≡ find_in key.now (entries_from (text_at tray.now) (value_of tray.now) entries.first entries.count) }
    ensures place { IfSome result (λ c. (entries.first < c) × (c < entries.first + 2 * entries.count)) }
{
    for j in 0..entries.count {
        let at = entries.key(j);
        if same_text(key, tray.text_of(at)) {
            return Some(at + 1);
        }
    }
    None
}

/// The value of the first entry with the key, by number, where the record i is an object.
pub fn find(tray: &Tray, i: usize, key: &[u8]) -> Option<usize>
    ensures number { result ≡ member_number (text_at tray.now) (record_of tray.now i) key.now }
    ensures value { option_map (value_of tray.now) result ≡ member (value_of tray.now i) key.now }
{
    match tray.record(i) {
        Record::Object(entries) => find_in(tray, entries, key),
        _ => None,
    }
}
