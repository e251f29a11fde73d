// `break` and `continue`, which write nothing and end the list of elements.
ghost use Rattle.std.specs.Prelude.{◌≡◌};
ghost use Rattle.renderer.specs.Flows.{flow_of};
ghost use Rattle.renderer.specs.Leaves.{flow_behind};

use crate::flow::Flow;
use nodes::table::Leaf;

/// How the list of elements goes on behind the leaf.
pub(crate) fn flow_after(leaf: Leaf) -> Flow
    ensures { flow_of result ≡ flow_behind leaf }
{
    match leaf {
        Leaf::Break => Flow::Broken,
        Leaf::Continue => Flow::Continued,
        _ => Flow::Onward,
    }
}
