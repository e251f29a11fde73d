// The pieces of the part, one by one.
ghost use Rattle.std.specs.Prelude.{◌≡◌};
ghost use Rattle.sheet.specs.Answers.{Takes};

use crate::parser::Parser;
use arguments::refusals::Stop;
use cutter::pieces::Piece;

impl<'a> Parser<'a> {
    // The next piece; nothing behind the last.
    #[tactic(auto, using(crate::proofs::Standing::taken_text, crate::proofs::Standing::taken_mark))]
    pub(crate) fn piece(&mut self) -> Result<Option<Piece<'a>>, Stop>
        ensures takes { Takes self.old result self.new }
        ensures reader { self.new.reader ≡ self.old.reader }
        ensures end { self.new.end ≡ self.old.end }
    {
        Ok(self.cutter.next()?)
    }
}
