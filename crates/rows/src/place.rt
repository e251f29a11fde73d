ghost use Rattle.std.specs.Prelude.{◌≡◌, min};
ghost use Rattle.rows.specs.Counted.{natural_part};

// A whole number as a place in a row of `count` items or as its end: 0 where it is below 0, `count` where it is past that.
pub(crate) fn within(place: i128, count: usize) -> usize
    ensures { result ≡ min (natural_part place) count }
{
    place.clamp(0, count as i128) as usize
}
