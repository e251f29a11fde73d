// Plain text, and `{{ value }}`.
ghost use Rattle.std.specs.Prelude.{◌≡◌};
ghost use Rattle.banks.specs.Meaning.{Meaning};
ghost use Rattle.drawers.specs.Shown.{shows};
ghost use Rattle.frames.specs.declared.stack.Frames as table;
ghost use Rattle.meaning.specs.Things as thing;
ghost use Rattle.nodes.specs.declared.table.Leaf.TheVariants.{Plain, Output};
ghost use Rattle.renderer.specs.Leaves.{LeafDone};

use banks::bank::Bank;
use drawers::things::Drawers;
use evaluation::chains::{chain, value_in};
use evaluation::names::part_in;
use frames::stack::Frames;
use held::faults::Fault;
use held::scenes::Scene;
use nodes::exprs::{Chain, Part};
use pages::write::{write_piece, write_value};

/// Writes a part of the source.
pub(crate) fn write_plain(
    scene: Scene,
    part: Part,
    out: &mut [u8],
    filled: usize,
) -> Result<usize, Fault>
    ensures { (fs : table.Frames) (m : Meaning) (d : thing.Drawers) → LeafDone scene.entry fs m d d filled out.old out.new result (Plain part) }
{
    write_piece(part_in(scene.book, part), out, filled)
}

/// Writes what a chain comes to.
pub(crate) fn write_output<B: Bank>(
    scene: Scene,
    frames: &Frames,
    drawers: &Drawers,
    bank: &mut B,
    output: Chain,
    out: &mut [u8],
    filled: usize,
) -> Result<usize, Fault>
    ensures done { LeafDone scene.entry frames.now (B.Bank.meaning bank.old) (shows drawers.now) (shows drawers.now) filled out.old out.new result (Output output) }
    ensures same { B.Bank.meaning bank.new ≡ B.Bank.meaning bank.old }
{
    let mut answer = [0; 256];
    let came = chain(scene, frames, drawers, bank, output, &mut answer)?;
    write_value(scene.tray, value_in(came, &answer), out, filled)
}
