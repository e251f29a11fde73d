// What the parser reads at its mark, without recursion.
ghost use Rattle.std.specs.Prelude.{◌≡◌};
ghost use Rattle.cutter.specs.Ahead.{ahead};
ghost use Rattle.arguments.specs.Tables.{under, Said, Grown, Shown, Lies};
ghost use Rattle.sheet.specs.Steps.{judged};
ghost use Rattle.sheet.specs.Names.{tag_name};
ghost use Rattle.sheet.specs.Blocks.{opens, opened, follows, closes};
ghost use Rattle.sheet.specs.Parsing.{a_text, an_output, a_simple};
ghost use Rattle.sheet.specs.Opening.{Opens, Follows};
ghost use Rattle.sheet.specs.Answers.{source_of, tag_in, taken, Did, Went, Leafs, Same};

use crate::blocks::{Following, Opened, closes, follows, open_held};
use crate::leaves::{read_output, read_simple, read_text, tag_name};
use crate::names::{Block, Simple};
use crate::parser::Parser;
use arguments::refusals::{Refusal, Stop};
use cutter::places::Placed;
use cutter::tokens::Word;

impl<'a> Parser<'a> {
    // The name of the tag that is read.
    pub(crate) fn tag_name(&mut self) -> Result<Word<'a>, Stop>
        ensures says { Said result (tag_name self.old.reader.mark (under self.old.reader)) (Shown (source_of self.old)) (under self.new.reader) }
        ensures grown { Grown self.old.reader self.new.reader }
        ensures cutter { self.new.cutter ≡ self.old.cutter }
        ensures end { self.new.end ≡ self.old.end }
    {
        tag_name(&mut self.reader)
    }

    // A text.
    pub(crate) fn text(&mut self, text: Placed<'a>) -> Result<(), Stop>
        requires lies { Lies (source_of self.old) text.place text.bytes.now }
        ensures says { Did result (taken (a_text text.entry.place text.entry.bytes.now) self.old) (Leafs self.old self.new) self.new }
        ensures went { Went self.old self.new }
        ensures cutter { self.new.cutter ≡ self.old.cutter }
    {
        read_text(&mut self.reader, text)
    }

    // An output.
    pub(crate) fn output(&mut self) -> Result<(), Stop>
        ensures says { Did result (taken (an_output self.old.reader.mark (ahead self.old.reader.cursor)) self.old) (Leafs self.old self.new) self.new }
        ensures went { Went self.old self.new }
        ensures cutter { self.new.cutter ≡ self.old.cutter }
    {
        read_output(&mut self.reader)
    }

    // A tag without elements, whose name is read.
    pub(crate) fn simple(&mut self, kind: Simple) -> Result<(), Stop>
        ensures says { Did result (taken (a_simple kind self.old.reader.mark (ahead self.old.reader.cursor)) self.old) (Leafs self.old self.new) self.new }
        ensures went { Went self.old self.new }
        ensures cutter { self.new.cutter ≡ self.old.cutter }
    {
        read_simple(&mut self.reader, kind)
    }

    // A tag that opens a block, whose name is read, with room for so many blocks in one another.
    pub(crate) fn open(&mut self, room: usize, kind: Block) -> Result<Opened, Stop>
        ensures says { Did result (taken (judged (opens room self.old.reader.mark (opened kind self.old.reader.mark)) (ahead self.old.reader.cursor)) self.old) (Opens self.old.reader self.new.reader) self.new }
        ensures went { Went self.old self.new }
        ensures cutter { self.new.cutter ≡ self.old.cutter }
    {
        if room == 0 {
            return Err(Stop::Refused(Refusal::Limit, self.reader.mark));
        }
        open_held(&mut self.reader, kind)
    }

    // The tag that ended elements of a block.
    pub(crate) fn follow(&mut self, kind: Block, tag: Word<'a>) -> Result<Following, Stop>
        ensures says { Did result (taken (judged (follows kind (tag_in self.old tag.entry)) (ahead self.old.reader.cursor)) self.old) (Follows self.old.reader self.new.reader) self.new }
        ensures went { Went self.old self.new }
        ensures cutter { self.new.cutter ≡ self.old.cutter }
    {
        follows(&mut self.reader, kind, tag)
    }

    // The tag that ends a block, behind its `else`.
    pub(crate) fn last(&mut self, kind: Block, tag: Word<'a>) -> Result<(), Stop>
        ensures says { Did result (taken (judged (closes kind (tag_in self.old tag.entry)) (ahead self.old.reader.cursor)) self.old) (Same self.old self.new) self.new }
        ensures went { Went self.old self.new }
        ensures cutter { self.new.cutter ≡ self.old.cutter }
    {
        closes(&mut self.reader, kind, tag)
    }
}
