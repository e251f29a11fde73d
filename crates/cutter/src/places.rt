// Places in some bytes, and bytes with their places.
ghost use Rattle.std.specs.Prelude.{◌+◌, ◌^◌, ◌<◌, ◌≤◌, length};

mod placing;

/// Bytes of a source with the place where they begin. Of a mark, the bytes inside with the place of the mark, which is two before them.
#[derive(Clone, Copy, Debug, PartialEq, Eq)]
pub struct Placed<'a> {
    pub place: usize,
    pub bytes: &'a [u8],
}

// A place in the bytes `src`: before the byte at `at`, or at the end.
#[derive(Clone, Copy, Debug, PartialEq, Eq)]
pub(crate) struct Place<'a> {
    pub(crate) src: &'a [u8],
    pub(crate) at: usize,
    ghost inside: { at ≤ length src.now },
}

// A place in bytes of which the first stands at `base` in a source. All their places there have 64 bits.
#[derive(Clone, Copy, Debug, PartialEq, Eq)]
pub(crate) struct Anchored<'a> {
    pub(crate) base: usize,
    pub(crate) here: Place<'a>,
    ghost fits: { base + length here.src.now < 2 ^ 64 },
}
