//! Names that belong to the language and not to hosts.
ghost use Rattle.std.specs.Prelude.{◌≡◌, ◌+◌, ◌*◌, ◌<◌, ◌≤◌, length, Decides};
ghost use Rattle.tray.specs.Sound.{reserved, Free};

use crate::parts::key_of;
use crate::records::{Record, Span};

/// Whether a name belongs to the language.
#[tactic(auto, using(crate::proofs::Same::reserved_reads, std::proofs::lemmas::Bool::Decides::nat_tests))]
pub fn is_reserved(name: &[u8]) -> bool
    ensures { result ≡ reserved name.now }
{
    matches!(name, b"forloop" | b"tablerowloop" | b"empty" | b"blank")
}

// Whether no key of the entries is a reserved name.
pub(crate) fn names_free(records: &[Record], text: &[u8], entries: Span) -> bool
    requires { 0 < entries.count → entries.first + 2 * entries.count ≤ length records.now }
    ensures { Decides result (Free records.now text.now entries.first entries.count) }
{
    // By numbers: where there are no entries, the span may begin past the end, and no slice can be cut.
    for j in 0..entries.count {
        if is_reserved(key_of(text, records[entries.key(j)])) {
            return false;
        }
    }
    true
}
