//! Templates by their names.

ghost use Rattle.std.specs.Prelude.{◌≡◌, ◌<◌, ◌≤◌, ℕ, Some, length, true};
ghost use Rattle.std.specs.List.{slice_get};
ghost use Rattle.tray.specs.Parts.{same_text};
ghost use Rattle.ticket.specs.Found.{Lent, name_of};

use crate::job::Template;
use tray::parts::same_text;

// The number of the last of these templates that has the name; where none has it, the number behind the last one, which no template has.
pub(crate) fn number_of(templates: &[&Template], name: &[u8]) -> usize
    ensures within { result ≤ length templates.now }
    ensures named { (t : Lent) → slice_get templates.now result ≡ Some t → same_text (name_of t) name.now ≡ true }
    ensures last { (k : ℕ) (t : Lent) → slice_get templates.now k ≡ Some t → same_text (name_of t) name.now ≡ true → (k ≤ result) × (result < length templates.now) }
{
    let mut number = templates.len();
    for i in 0..templates.len() {
        if same_text(templates[i].name.as_slice(), name) {
            number = i;
        }
    }
    number
}
