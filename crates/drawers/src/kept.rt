// Values that can be kept.
ghost use Rattle.std.specs.Prelude.{◌≡◌};
ghost use Rattle.std.specs.Option.{option_map};
ghost use Rattle.held.specs.Value.{held_by};
ghost use Rattle.drawers.specs.Shown.{held_of};
ghost use Rattle.drawers.specs.Kept.{if_short, IfKept};

use arrayvec::ArrayVec;
use held::value::Value;

/// A value that can be kept: its text has at most 256 bytes, and is its own.
pub type Kept = Value<ArrayVec<u8, 256>>;

// The same bytes as an own text, where they are at most 256.
fn own(bytes: &[u8]) -> Option<ArrayVec<u8, 256>>
    ensures { IfKept bytes.now result }
{
    let mut text = ArrayVec::new();
    if text.try_extend_from_slice(bytes).is_err() {
        return None;
    }
    Some(text)
}

/// The same value with a text of its own; nothing where the text has over 256 bytes.
pub fn keep(value: Value<&[u8]>) -> Option<Kept>
    ensures { option_map held_of result ≡ if_short (held_by (λ t. t.now) value.entry) }
{
    match value {
        Value::Nil => Some(Value::Nil),
        Value::Boolean(b) => Some(Value::Boolean(b)),
        Value::Whole(n) => Some(Value::Whole(n)),
        Value::Text(bytes) => Some(Value::Text(own(bytes)?)),
        Value::Array(i) => Some(Value::Array(i)),
        Value::Object(i) => Some(Value::Object(i)),
        Value::Pair(i) => Some(Value::Pair(i)),
    }
}

/// The same value with its text borrowed.
pub fn lend(kept: &Kept) -> Value<&[u8]>
    ensures { held_by (λ t. t.now) result ≡ held_of kept.now }
{
    match kept {
        Value::Nil => Value::Nil,
        Value::Boolean(b) => Value::Boolean(*b),
        Value::Whole(n) => Value::Whole(*n),
        Value::Text(text) => Value::Text(text.as_slice()),
        Value::Array(i) => Value::Array(*i),
        Value::Object(i) => Value::Object(*i),
        Value::Pair(i) => Value::Pair(*i),
    }
}
