//! Which values pass a test of their existence.
ghost use Rattle.std.specs.Prelude.{◌≡◌};
ghost use Rattle.held.specs.Value.{held_by};
ghost use Rattle.meaning.specs.Tests.{true_value};

use held::value::Value;

/// Whether a value passes: all but nil and false do.
pub fn is_true(value: Value<&[u8]>) -> bool
    ensures { result ≡ true_value (held_by (λ t. t.now) value.entry) }
{
    match value {
        Value::Nil => false,
        Value::Boolean(b) => b,
        _ => true,
    }
}
