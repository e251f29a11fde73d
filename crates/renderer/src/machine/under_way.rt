// The node under way.
ghost use Rattle.std.specs.Prelude.{◌≡◌, length};
ghost use Rattle.frames.specs.Views.{open_in};
ghost use Rattle.renderer.specs.Machines.{fits, node_in};

use crate::machine::Machine;
use nodes::table::Node;

// How deep blocks may stand in one another.
const DEPTH: usize = 16;

impl Machine {
    // Whether the node can be rendered here: a block ends behind its node and within the list, and has room for a frame.
    fn fits(&self, node: Node) -> bool
        ensures { result ≡ fits self.now.at self.now.end (length (open_in self.now.frames)) node }
    {
        match node {
            Node::Open { end, .. } | Node::Case { end, .. } => {
                self.at < end && end <= self.end && self.frames.depth() < DEPTH
            }
            _ => true,
        }
    }

    /// The node under way, before the end of its list; no other can be rendered.
    pub(crate) fn node(&self, nodes: &[Node]) -> Option<Node>
        ensures { result ≡ node_in nodes.now self.now.at self.now.end (length (open_in self.now.frames)) }
    {
        if self.at >= self.end {
            return None;
        }
        let node = *nodes.get(self.at)?;
        if self.fits(node) { Some(node) } else { None }
    }
}
