ghost use Rattle.std.specs.Prelude.{◌≡◌, Decides, MatchResult};
ghost use Rattle.tray.specs.Sound.{Sound};

use crate::holders::{held_once, keys_text};
use crate::names::names_free;
use crate::records::{OpenError, Record};
use std::alloc::Global;

// Whether the records make a tray beside the text.
pub(crate) fn sound(heap: Global, records: &[Record], text: &[u8]) -> Result<bool, OpenError>
    ensures { MatchResult result (λ b. Decides b (Sound records.now text.now)) (λ e. e ≡ OpenError.Memory) }
{
    let Some(Record::Object(names)) = records.first() else {
        return Ok(false);
    };
    let mut held = vec![in heap; false; records.len()]?;
    Ok(
        held_once(records, held.as_mut_slice())
            && keys_text(records)
            && names_free(records, text, *names),
    )
}
