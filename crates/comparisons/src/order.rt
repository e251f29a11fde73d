//! Which of two values comes first.
ghost use Rattle.std.specs.Prelude.{◌≡◌, not, int_lt};
ghost use Rattle.held.specs.Value.{held_by};
ghost use Rattle.meaning.specs.Tests.{text_less, ordered};

use held::value::Value;

// Byte by byte: the `<` of slices, in the words of the definitions.
fn text_less(a: &[u8], b: &[u8]) -> bool
    ensures { result ≡ text_less a.now b.now }
{
    a < b
}

// Whether both are numbers or both texts, and the first is the smaller one.
pub(crate) fn less(a: Value<&[u8]>, b: Value<&[u8]>) -> bool
    ensures { result ≡ ordered int_lt text_less (held_by (λ t. t.now) a.entry) (held_by (λ t. t.now) b.entry) }
{
    match (a, b) {
        (Value::Whole(x), Value::Whole(y)) => x < y,
        (Value::Text(s), Value::Text(t)) => text_less(s, t),
        _ => false,
    }
}

// The same, or they are equal.
pub(crate) fn at_most(a: Value<&[u8]>, b: Value<&[u8]>) -> bool
    ensures { result ≡ ordered (λ x y. not (int_lt y x)) (λ s t. not (text_less t s)) (held_by (λ t. t.now) a.entry) (held_by (λ t. t.now) b.entry) }
{
    match (a, b) {
        (Value::Whole(x), Value::Whole(y)) => x <= y,
        (Value::Text(s), Value::Text(t)) => !text_less(t, s),
        _ => false,
    }
}
