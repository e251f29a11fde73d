// Elements, and the blocks among them.
ghost use Rattle.std.specs.Prelude.{◌≡◌};
ghost use Rattle.sheet.specs.Answers.{source_of, StandsIn, ElementsRead, InnerRead, ElementRead, MarkRead, TagRead, BlockRead, ArmRead, RestRead, Went, Met, MetOne};

use crate::blocks::{Following, Opened};
use crate::names::{Block, Known, known_as};
use crate::parser::Parser;
use arguments::refusals::{Refusal, Stop};
use cutter::pieces::Piece;
use cutter::state::Kind;
use cutter::tokens::Word;
use nodes::table::{Arm, Guard, Next, Node};

impl<'a> Parser<'a> {
    // The elements ahead, with room for so many blocks in one another, up to a tag that begins none, or up to the end of the part.
    #[cycle(walk)]
    pub(crate) fn elements(&mut self, room: usize) -> Result<Option<Word<'a>>, Stop>
        ensures says { ElementsRead room self.old result self.new }
        ensures went { Went self.old self.new }
        ensures met { Met self.old result self.new }
    {
        while let Some(piece) = self.piece()? {
            if let Some(tag) = self.element(room, piece)? {
                return Ok(Some(tag));
            }
        }
        Ok(None)
    }

    // The element that begins with this piece; or the tag that begins none.
    #[cycle(walk)]
    fn element(&mut self, room: usize, piece: Piece<'a>) -> Result<Option<Word<'a>>, Stop>
        requires stands { StandsIn (source_of self.old) piece }
        ensures says { ElementRead room piece.entry self.old result self.new }
        ensures went { Went self.old self.new }
    {
        match piece {
            Piece::Text(text) => {
                self.text(text)?;
                Ok(None)
            }
            Piece::Mark(kind, mark) => {
                self.begin(mark)?;
                self.mark(room, kind)
            }
        }
    }

    // A mark that is begun.
    #[cycle(walk)]
    fn mark(&mut self, room: usize, kind: Kind) -> Result<Option<Word<'a>>, Stop>
        ensures says { MarkRead room kind self.old result self.new }
        ensures went { Went self.old self.new }
    {
        match kind {
            Kind::Output => {
                self.output()?;
                Ok(None)
            }
            Kind::Tag => self.tag(room),
        }
    }

    // A tag.
    #[cycle(walk)]
    fn tag(&mut self, room: usize) -> Result<Option<Word<'a>>, Stop>
        ensures says { TagRead room self.old result self.new }
        ensures went { Went self.old self.new }
    {
        let name = self.tag_name()?;
        let Some(known) = known_as(name.bytes) else {
            return Ok(Some(name));
        };
        match known {
            Known::Simple(kind) => {
                self.simple(kind)?;
                Ok(None)
            }
            Known::Block(kind) => {
                self.block(room, kind)?;
                Ok(None)
            }
        }
    }

    // A block, whose tag and name are read.
    #[cycle(walk)]
    fn block(&mut self, room: usize, kind: Block) -> Result<(), Stop>
        ensures says { BlockRead room kind self.old result self.new }
        ensures went { Went self.old self.new }
    {
        let place = self.reader.mark;
        let at = self.count();
        match self.open(room, kind)? {
            Opened::Arm(block, guard) => {
                let arm = self.arm(room - 1, kind, guard)?;
                let end = self.count();
                self.set_node(
                    at,
                    Node::Open {
                        place,
                        block,
                        arm,
                        end,
                    },
                );
                Ok(())
            }
            Opened::Case(target) => {
                let tag = self.inner(room - 1)?;
                self.drop_nodes(at + 1);
                let then = self.rest(room - 1, kind, tag)?;
                let end = self.count();
                self.set_node(
                    at,
                    Node::Case {
                        place,
                        target,
                        then,
                        end,
                    },
                );
                Ok(())
            }
        }
    }

    // The elements of a block, and the tag that ends them.
    #[cycle(walk)]
    fn inner(&mut self, room: usize) -> Result<Word<'a>, Stop>
        ensures says { InnerRead room self.old result self.new }
        ensures went { Went self.old self.new }
        ensures met { MetOne self.old result self.new }
    {
        match self.elements(room)? {
            Some(tag) => Ok(tag),
            None => Err(Stop::Refused(Refusal::OpenBlock, self.end)),
        }
    }

    // An arm, and those behind it.
    #[cycle(walk)]
    fn arm(&mut self, room: usize, kind: Block, guard: Guard) -> Result<Arm, Stop>
        ensures says { ArmRead room kind guard self.old result self.new }
        ensures went { Went self.old self.new }
    {
        let body = self.count();
        let tag = self.inner(room)?;
        let next = self.count();
        let then = self.rest(room, kind, tag)?;
        Ok(Arm {
            guard,
            body,
            next,
            then,
        })
    }

    // What follows behind elements of a block, by the tag that ended them.
    #[cycle(walk)]
    fn rest(&mut self, room: usize, kind: Block, tag: Word<'a>) -> Result<Next, Stop>
        ensures says { RestRead room kind tag.entry self.old result self.new }
        ensures went { Went self.old self.new }
    {
        let at = self.count();
        match self.follow(kind, tag)? {
            Following::End => Ok(Next::Nothing),
            Following::Else => {
                let tag = self.inner(room)?;
                self.last(kind, tag)?;
                Ok(Next::Else)
            }
            Following::Arm(guard) => {
                let arm = self.arm(room, kind, guard)?;
                self.set_node(at, Node::Arm(arm));
                Ok(Next::Arm)
            }
        }
    }
}
