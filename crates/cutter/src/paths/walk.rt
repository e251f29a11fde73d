ghost use Rattle.std.specs.Prelude.{◌≡◌, ◌+◌, ◌^◌, ◌<◌, ◌≤◌, length};
ghost use Rattle.cutter.specs.Paths.{step_of, steps_of, steps_left, placed_step, Walked, KeysAreInside};

use crate::paths::{StepWord, Steps};
use crate::places::{Anchored, Place, Placed};
use crate::tokens::reading::inner;
use numerals::read_whole;

// `fits` is a clause here, since an `Anchored` is a place in some bytes, and a step is all of its bytes.
fn step_of(step: Placed<'_>) -> StepWord<'_>
    requires long { 2 ≤ length step.bytes.now }
    requires fits { step.place + length step.bytes.now < 2 ^ 64 }
    ensures { placed_step result ≡ step_of step.entry.place step.entry.bytes.now }
{
    let Placed { place, bytes } = step;
    if let [b'.', key @ ..] = bytes {
        return StepWord::Key(Placed {
            place: place + 1,
            bytes: key,
        });
    }
    let key = inner(bytes);
    match read_whole(key) {
        Some(n) => StepWord::Index(n),
        None => StepWord::Key(Placed {
            place: place + 2,
            bytes: inner(key),
        }),
    }
}

impl<'a> Steps<'a> {
    /// The steps in these bytes, up to what is no step.
    #[tactic(auto, using(crate::proofs::Walks::keys_inside), unfolding(crate::specs::Paths::steps_of, crate::specs::Paths::steps_from))]
    pub fn new(written: Placed<'a>) -> Self
        ensures steps { steps_left result ≡ steps_of written.entry.place written.entry.bytes.now }
        ensures inside { KeysAreInside }
    {
        match Anchored::new(written) {
            Some(rest) => Steps { rest },
            None => Steps {
                rest: Anchored {
                    base: 0,
                    here: Place { src: b"", at: 0 },
                },
            },
        }
    }

    /// The next step; nothing behind the last.
    #[tactic(auto, using(crate::proofs::Walks::no_step, crate::proofs::Walks::one_step, crate::proofs::Walks::long_step))]
    pub fn next(&mut self) -> Option<StepWord<'a>>
        ensures { Walked (steps_left self.old) result (steps_left self.new) }
    {
        let Anchored { base, here: start } = self.rest;
        let end = start.step()?;
        self.rest.here = end;
        Some(step_of(Placed {
            place: base + start.at,
            bytes: &start.src[start.at..end.at],
        }))
    }
}
