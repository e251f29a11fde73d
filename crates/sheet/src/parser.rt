// A part that is read into the tables.
ghost use Rattle.std.specs.Prelude.{◌≡◌, true};
ghost use Rattle.cutter.specs.Left.{left};
ghost use Rattle.sheet.specs.Standing.{pieces_stand};

use arguments::reader::Reader;
use cutter::pieces::Cutter;

/// The tables, and the mark that is read; the pieces that are left; and the place where the part ends.
#[derive(Debug, PartialEq, Eq, Drop)]
pub(crate) struct Parser<'a> {
    pub(crate) reader: Reader<'a>,
    pub(crate) cutter: Cutter<'a>,
    pub(crate) end: usize,
    ghost stand: { pieces_stand reader.source.now (left cutter) ≡ true },
}
