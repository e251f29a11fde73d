//! A text sought in another.
ghost use Rattle.std.specs.Prelude.{◌≡◌};
ghost use Rattle.meaning.specs.Tests.{begins, stands_in};

// Whether the text begins with `sought`.
fn begins(sought: &[u8], text: &[u8]) -> bool
    ensures { result ≡ begins sought.now text.now }
{
    text.starts_with(sought)
}

// Whether `sought` stands anywhere in the text.
pub(crate) fn stands_in(sought: &[u8], text: &[u8]) -> bool
    ensures { result ≡ stands_in sought.now text.now }
{
    for i in 0..text.len() {
        if begins(sought, &text[i..]) {
            return true;
        }
    }
    sought.is_empty()
}
