// The nodes that the parser has pushed, and the mark that it is at.
ghost use Rattle.std.specs.Prelude.{◌≡◌, take, slice_set};
ghost use Rattle.arguments.specs.Tables.{Sets};
ghost use Rattle.arguments.specs.Marks.{Begins};
ghost use Rattle.sheet.specs.Answers.{count, nodes_of};

use crate::parser::Parser;
use arguments::refusals::Stop;
use cutter::places::Placed;
use nodes::table::Node;

impl<'a> Parser<'a> {
    // How many nodes there are.
    pub(crate) fn count(&self) -> usize
        ensures { result ≡ count self.now }
    {
        self.reader.nodes.len()
    }

    // Sets the node at `at`.
    pub(crate) fn set_node(&mut self, at: usize, node: Node)
        ensures sets { Sets self.old.reader self.new.reader (slice_set (nodes_of self.old) at node) }
        ensures cutter { self.new.cutter ≡ self.old.cutter }
        ensures end { self.new.end ≡ self.old.end }
    {
        self.reader.set_node(at, node);
    }

    // Drops the nodes from `count` on.
    pub(crate) fn drop_nodes(&mut self, count: usize)
        ensures sets { Sets self.old.reader self.new.reader (take count (nodes_of self.old)) }
        ensures cutter { self.new.cutter ≡ self.old.cutter }
        ensures end { self.new.end ≡ self.old.end }
    {
        self.reader.drop_nodes(count);
    }

    // Turns to the tokens inside this mark.
    pub(crate) fn begin(&mut self, mark: Placed<'a>) -> Result<(), Stop>
        ensures begins { Begins self.old.reader mark.entry.place mark.entry.bytes.now result self.new.reader }
        ensures cutter { self.new.cutter ≡ self.old.cutter }
        ensures end { self.new.end ≡ self.old.end }
    {
        self.reader.begin(mark)
    }
}
