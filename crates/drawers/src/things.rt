// All drawers of a sheet.
ghost use Rattle.std.specs.Prelude.{◌≡◌, vec_len};

use crate::drawer::Drawer;
use crate::kept::Kept;
use arrayvec::ArrayVec;

mod contents;

/// What outlives a ticket. It has room for the names of every sheet, and no later call needs memory.
#[derive(Drop)]
pub struct Drawers {
    variables: Drawer<Kept>,
    counters: Drawer<i64>,
    positions: Drawer<usize>,
    changed: ArrayVec<u8, 1024>,
    ghost variable_places: { vec_len variables.slots ≡ 128 },
    ghost counter_places: { vec_len counters.slots ≡ 128 },
    ghost position_places: { vec_len positions.slots ≡ 32 },
}
