// A part that is read whole.
ghost use Rattle.std.specs.Prelude.{◌≡◌, ◌≤◌, length, map};
ghost use Rattle.arguments.specs.Lengths.{lengths_of, CutBack};
ghost use Rattle.arguments.specs.Tables.{part_in, asked_in};
ghost use Rattle.sheet.specs.Loading.{first_unknown, part_of};
ghost use Rattle.sheet.specs.Answers.{source_of, cut_of, Grew};
ghost use Rattle.sheet.specs.Parts.{PartRead};

use crate::blocks::unknown;
use crate::parser::Parser;
use arguments::reader::lengths::Lengths;
use arguments::reader::lists::part_in;
use arguments::refusals::{Refusal, Stop};
use banks::bank::Bank;
use cutter::pieces::Cutter;
use nodes::exprs::Filter;

// How many blocks may stand in one another.
const BLOCKS: usize = 16;

// The place of the first of these filters that the bank does not know.
fn first_unknown<B: Bank>(source: &[u8], filters: &[Filter], bank: &mut B) -> Option<usize>
    ensures is { result ≡ first_unknown (B.Bank.meaning bank.old).known (map (asked_in source.now) filters.now) }
    ensures same { B.Bank.meaning bank.new ≡ B.Bank.meaning bank.old }
{
    let mut left = filters;
    while let Some((filter, rest)) = left.split_first() {
        if !bank.knows(part_in(source, filter.name)) {
            return Some(filter.name.place);
        }
        left = rest;
    }
    None
}

impl<'a> Parser<'a> {
    // Turns to the part from one place up to another.
    fn turn(&mut self, from: usize, to: usize)
        requires inside { to ≤ length (source_of self.old) }
        ensures reader { self.new.reader ≡ self.old.reader }
        ensures cutter { cut_of self.new ≡ part_of (source_of self.old) from to }
        ensures end { self.new.end ≡ to }
    {
        self.cutter = Cutter::at(&self.reader.source[..to], from);
        self.end = to;
    }

    // Reads the part from one place up to another.
    pub(crate) fn part<B: Bank>(&mut self, from: usize, to: usize, bank: &mut B) -> Result<(), Stop>
        requires inside { to ≤ length (source_of self.old) }
        ensures says { PartRead (B.Bank.meaning bank.old).known from to self.old result self.new }
        ensures grew { Grew self.old self.new }
        ensures same { B.Bank.meaning bank.new ≡ B.Bank.meaning bank.old }
    {
        let asked = self.reader.filters.len();
        self.turn(from, to);
        if let Some(tag) = self.elements(BLOCKS)? {
            return Err(unknown(tag));
        }
        let filters = &self.reader.filters.as_slice()[asked..];
        match first_unknown(self.reader.source, filters, bank) {
            Some(place) => Err(Stop::Refused(Refusal::UnknownFilter, place)),
            None => Ok(()),
        }
    }

    // How long the tables are.
    pub(crate) fn lengths(&self) -> Lengths
        ensures { result ≡ lengths_of self.now.reader }
    {
        self.reader.lengths()
    }

    // Drops the entries from these lengths on.
    pub(crate) fn cut_back(&mut self, to: Lengths)
        ensures { CutBack self.old.reader to self.new.reader }
    {
        self.reader.cut_back(to);
    }
}
