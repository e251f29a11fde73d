ghost use Rattle.cutter.specs.Places.{Anchors};

use crate::places::{Anchored, Place, Placed};

impl<'a> Anchored<'a> {
    // Before the first of these bytes; nothing where the place behind the last has more than 64 bits.
    pub(crate) fn new(written: Placed<'a>) -> Option<Self>
        ensures { Anchors written.entry result }
    {
        let Placed { place, bytes } = written;
        place.checked_add(bytes.len())?;
        Some(Anchored {
            base: place,
            here: Place { src: bytes, at: 0 },
        })
    }
}
