// The mark that is read.
ghost use Rattle.arguments.specs.Marks.{Begins};

use crate::reader::Reader;
use crate::refusals::Stop;
use cutter::places::Placed;
use cutter::tokens::Cursor;
use cutter::tokens::ahead::check_from;

impl<'a> Reader<'a> {
    /// Turns to the tokens inside this mark, if all of it cuts into tokens.
    pub fn begin(&mut self, mark: Placed<'a>) -> Result<(), Stop>
        ensures { Begins self.old mark.entry.place mark.entry.bytes.now result self.new }
    {
        let from = mark.place.saturating_add(2);
        let to = from.saturating_add(mark.bytes.len()).min(self.source.len());
        let source = &self.source[..to];
        check_from(source, from)?;
        self.mark = mark.place;
        self.cursor = Cursor::at(source, from);
        Ok(())
    }
}
