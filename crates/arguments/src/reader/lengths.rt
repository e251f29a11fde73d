// How long the tables are, and how they are cut back.
ghost use Rattle.std.specs.Prelude.{◌≡◌};
ghost use Rattle.arguments.specs.Lengths.{lengths_of, CutBack};

use crate::reader::Reader;

/// How many entries each table has.
#[derive(Clone, Copy, Debug, PartialEq, Eq)]
pub struct Lengths {
    pub names: usize,
    pub cycles: usize,
    pub steps: usize,
    pub values: usize,
    pub filters: usize,
    pub nodes: usize,
}

impl Reader<'_> {
    /// How long the tables are.
    pub fn lengths(&self) -> Lengths
        ensures { result ≡ lengths_of self.now }
    {
        Lengths {
            names: self.names.len(),
            cycles: self.cycles.len(),
            steps: self.steps.len(),
            values: self.values.len(),
            filters: self.filters.len(),
            nodes: self.nodes.len(),
        }
    }

    /// Drops the entries from these lengths on.
    pub fn cut_back(&mut self, to: Lengths)
        ensures { CutBack self.old to self.new }
    {
        self.names.truncate(to.names);
        self.cycles.truncate(to.cycles);
        self.steps.truncate(to.steps);
        self.values.truncate(to.values);
        self.filters.truncate(to.filters);
        self.nodes.truncate(to.nodes);
    }
}
