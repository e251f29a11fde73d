// Values, rows and targets.
ghost use Rattle.std.specs.Prelude.{◌≡◌, [], length};
ghost use Rattle.cutter.specs.Paths.{steps_of, placed_step};
ghost use Rattle.cutter.specs.Tokens.{token_of, is_range};
ghost use Rattle.nodes.specs.Exprs.{expr_of};
ghost use Rattle.arguments.specs.Judging.{seen};
ghost use Rattle.arguments.specs.Values.{read, bare, head, a_path, value_as, value, row_as, a_row, new_name, target};
ghost use Rattle.arguments.specs.Tables.{part_in, pool_of, under, Said, Grown, Lies, Below};
ghost use Rattle.arguments.specs.Reading.{Heads, Exprs, Rows, Stepped, entry_of};

use crate::reader::Reader;
use crate::reader::lists::part_in;
use crate::reader::words::bare_of;
use crate::refusals::{Refusal, Stop};
use crate::words::{Special, special_of};
use cutter::paths::{StepWord, Steps};
use cutter::places::Placed;
use cutter::tokens::{Token, Word};
use nodes::exprs::{Expr, Head, Part, Row, Span, Step};
use tray::names::is_reserved;

// How many steps a path may have.
const STEPS: usize = 4;

// A step as an entry of the table.
fn step_of(step: StepWord) -> Step
    ensures { result ≡ entry_of (placed_step step.entry) }
{
    match step {
        StepWord::Index(n) => Step::Index(n),
        StepWord::Key(key) => Step::Key(Part {
            place: key.place,
            len: key.bytes.len(),
        }),
    }
}

impl<'a> Reader<'a> {
    // The first name of a path; what is refused has the place `place`.
    fn head(&mut self, place: usize, name: Part) -> Result<Head, Stop>
        ensures says { Said result (head place (part_in self.old.source.now name) (under self.old)) (Heads (pool_of self.new)) (under self.new) }
        ensures grown { Grown self.old self.new }
    {
        match special_of(part_in(self.source, name)) {
            Special::Forloop => Ok(Head::Forloop),
            Special::Tablerowloop => Ok(Head::Tablerowloop),
            Special::Barred => Err(Stop::Refused(Refusal::Reserved, place)),
            Special::Free => self.enter(place, name).map(Head::Name),
        }
    }

    // The steps as written go into their table; what is refused has the place `place`.
    fn push_steps(&mut self, place: usize, steps: Placed<'a>) -> Result<Span, Stop>
        requires lies { Lies self.old.source.now steps.place steps.bytes.now }
        ensures did { Stepped self.new (steps_of steps.entry.place steps.entry.bytes.now) place result }
        ensures grown { Grown self.old self.new }
        ensures same { under self.new ≡ under self.old }
    {
        let from = self.steps.len();
        let mut walk = Steps::new(steps);
        while let Some(step) = walk.next() {
            if self.steps.len() - from == STEPS {
                return Err(Stop::Refused(Refusal::Limit, place));
            }
            self.steps.push(step_of(step))?;
        }
        let count = self.steps.len() - from;
        Ok(Span { from, count })
    }

    // A path, judged at `place`: its first name, and its steps as written.
    fn path(&mut self, place: usize, name: Part, steps: Placed<'a>) -> Result<Expr, Stop>
        requires lies { Lies self.old.source.now steps.place steps.bytes.now }
        ensures says { Said result (a_path place (part_in self.old.source.now name) (steps_of steps.entry.place steps.entry.bytes.now) (under self.old)) (Exprs (pool_of self.new)) (under self.new) }
        ensures grown { Grown self.old self.new }
    {
        let steps = self.push_steps(place, steps)?;
        let head = self.head(place, name)?;
        Ok(Expr::Path(head, steps))
    }

    // A path without steps.
    fn bare_path(&mut self, place: usize, name: Part) -> Result<Expr, Stop>
        ensures says { Said result (a_path place (part_in self.old.source.now name) [] (under self.old)) (Exprs (pool_of self.new)) (under self.new) }
        ensures grown { Grown self.old self.new }
    {
        let head = self.head(place, name)?;
        Ok(Expr::Path(head, Span { from: 0, count: 0 }))
    }

    // The value that a token is, judged at `place`.
    #[tactic(auto, unfolding(crate::specs::Values::value_as, nodes::specs::Exprs::expr_of))]
    fn value_as(&mut self, place: usize, word: Word<'a>) -> Result<Expr, Stop>
        requires lies { Lies self.old.source.now word.place word.bytes.now }
        ensures says { Said result (value_as place word.entry.place (token_of word.entry.place word.entry.bytes.now) (under self.old)) (Exprs (pool_of self.new)) (under self.new) }
        ensures grown { Grown self.old self.new }
    {
        let at = word.place;
        match word.token() {
            Token::Nil => Ok(Expr::Nil),
            Token::Boolean(b) => Ok(Expr::Boolean(b)),
            Token::Number(n) => Ok(Expr::Number(n)),
            Token::Text(t) => Ok(Expr::Text(Part {
                place: at + 1,
                len: t.len(),
            })),
            Token::Name(n) => self.bare_path(
                place,
                Part {
                    place: at,
                    len: n.len(),
                },
            ),
            Token::Path(n, steps) => self.path(
                place,
                Part {
                    place: at,
                    len: n.len(),
                },
                Placed {
                    place: at + n.len(),
                    bytes: steps,
                },
            ),
            Token::Range(_, _) | Token::Symbol(_) => Err(Stop::Refused(Refusal::Argument, place)),
        }
    }

    /// A value.
    #[tactic(auto, using(crate::proofs::Chaining::said_went, crate::proofs::Chaining::refuses_went), unfolding(crate::specs::Values::value))]
    pub fn value(&mut self) -> Result<Expr, Stop>
        ensures says { Said result (value self.old.mark (under self.old)) (Exprs (pool_of self.new)) (under self.new) }
        ensures grown { Grown self.old self.new }
    {
        let word = self.word()?;
        self.value_as(word.place, word)
    }

    // The bounds of a range, judged at `place`.
    fn bounds(&mut self, place: usize, from: Word<'a>, to: Word<'a>) -> Result<Row, Stop>
        requires from { Lies self.old.source.now from.place from.bytes.now }
        requires to { Lies self.old.source.now to.place to.bytes.now }
        ensures says { Said result (row_as place (is_range from.entry.place from.entry.bytes.now to.entry.place to.entry.bytes.now) (under self.old)) (Rows (pool_of self.new)) (under self.new) }
        ensures grown { Grown self.old self.new }
    {
        let from = self.value_as(place, from)?;
        let to = self.value_as(place, to)?;
        Ok(Row::Range(from, to))
    }

    // What a loop goes over, as a token says it.
    fn row_as(&mut self, word: Word<'a>) -> Result<Row, Stop>
        requires lies { Lies self.old.source.now word.place word.bytes.now }
        ensures says { Said result (row_as word.entry.place (token_of word.entry.place word.entry.bytes.now) (under self.old)) (Rows (pool_of self.new)) (under self.new) }
        ensures grown { Grown self.old self.new }
    {
        let place = word.place;
        match word.token() {
            Token::Range(from, to) => self.bounds(place, from, to),
            _ => Ok(Row::Of(self.value_as(place, word)?)),
        }
    }

    /// What a loop goes over.
    #[tactic(auto, using(crate::proofs::Chaining::said_went, crate::proofs::Chaining::refuses_went), unfolding(crate::specs::Values::a_row))]
    pub fn row(&mut self) -> Result<Row, Stop>
        ensures says { Said result (a_row self.old.mark (under self.old)) (Rows (pool_of self.new)) (under self.new) }
        ensures grown { Grown self.old self.new }
    {
        let word = self.word()?;
        self.row_as(word)
    }

    // The number of the bare name that a token is.
    fn new_name(&mut self, word: Word<'a>) -> Result<usize, Stop>
        requires lies { Lies self.old.source.now word.place word.bytes.now }
        ensures says { Said result (new_name word.entry.place (bare (read (seen word.entry.place word.entry.bytes.now))) (under self.old)) (Below (length self.new.names.items)) (under self.new) }
        ensures grown { Grown self.old self.new }
    {
        let place = word.place;
        let name = bare_of(word).ok_or(Stop::Refused(Refusal::Argument, place))?;
        if is_reserved(name) {
            return Err(Stop::Refused(Refusal::Reserved, place));
        }
        let len = name.len();
        self.enter(place, Part { place, len })
    }

    /// A target or loop variable.
    #[tactic(auto, using(crate::proofs::Chaining::said_went, crate::proofs::Chaining::refuses_went), unfolding(crate::specs::Values::target))]
    pub fn target(&mut self) -> Result<usize, Stop>
        ensures says { Said result (target self.old.mark (under self.old)) (Below (length self.new.names.items)) (under self.new) }
        ensures grown { Grown self.old self.new }
    {
        let word = self.word()?;
        self.new_name(word)
    }
}
