//! How two values of a comparison compare.
ghost use Rattle.std.specs.Prelude.{◌≡◌};
ghost use Rattle.nodes.specs.Exprs.{comparison_of};
ghost use Rattle.held.specs.Scenes.{host_of};
ghost use Rattle.held.specs.Value.{held_by};
ghost use Rattle.meaning.specs.Looking.{World};
ghost use Rattle.meaning.specs.Tests.{compared};
ghost use Rattle.comparisons.specs.Ends.{Ends};

use crate::contains::contains;
use crate::order::{at_most, less};
use crate::same::same;
use held::faults::Fault;
use held::value::Value;
use nodes::exprs::Comparison;
use tray::trays::Tray;

/// Whether a comparison of two values holds.
pub fn compare(
    tray: &Tray,
    a: Value<&[u8]>,
    comparison: Comparison,
    b: Value<&[u8]>,
) -> Result<bool, Fault>
    ensures { (w : World) → w.host ≡ host_of tray.now → Ends (compared w (comparison_of comparison) (held_by (λ t. t.now) a.entry) (held_by (λ t. t.now) b.entry)) result }
{
    match comparison {
        Comparison::Equals => Ok(same(tray, a, b)),
        Comparison::Differs => Ok(!same(tray, a, b)),
        Comparison::Less => Ok(less(a, b)),
        Comparison::More => Ok(less(b, a)),
        Comparison::AtMost => Ok(at_most(a, b)),
        Comparison::AtLeast => Ok(at_most(b, a)),
        Comparison::Contains => contains(tray, a, b),
    }
}
