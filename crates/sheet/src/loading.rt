// Templates enter a sheet.
ghost use Rattle.std.specs.Prelude.{◌≡◌, ◌≤◌, [], ◌∷◌, ◌++◌, length, OnOk, OnErr, vec_items};
ghost use Rattle.sheet.specs.Answers.{source_of, count, Grew};
ghost use Rattle.sheet.specs.Parts.{PartRead};
ghost use Rattle.sheet.specs.GrammarLaws.{Derived, OneWay, OnlyTree, Accepted, NotWritten, GroupsRight};
ghost use Rattle.sheet.specs.Sheets.{source_in, templates_of, lists, Loads};

use crate::parser::Parser;
use crate::sheet::Sheet;
use crate::templates::Template;
use arguments::reader::Reader;
use arguments::refusals::{Refusal, Stop};
use banks::bank::Bank;
use cutter::pieces::Cutter;
use cutter::tokens::Cursor;
use std::alloc::Global;

const TEMPLATES: usize = 32;

const LONGEST: usize = 16384;

// Reads the part from one place up to another as a template more.
fn add<B: Bank>(
    parser: &mut Parser<'_>,
    templates: &mut Vec<Template>,
    from: usize,
    to: usize,
    bank: &mut B,
) -> Result<(), Stop>
    requires inside { to ≤ length (source_of parser.old) }
    ensures says { PartRead (B.Bank.meaning bank.old).known from to parser.old result parser.new }
    ensures grew { Grew parser.old parser.new }
    ensures added { OnOk result (vec_items templates.new ≡ vec_items templates.old ++ record { from = count parser.old; end = count parser.new } ∷ []) }
    ensures not { OnErr result (vec_items templates.new ≡ vec_items templates.old) }
    ensures same { B.Bank.meaning bank.new ≡ B.Bank.meaning bank.old }
{
    let first = parser.count();
    parser.part(from, to, bank)?;
    let end = parser.count();
    templates.push(Template { from: first, end })?;
    Ok(())
}

impl<'a> Sheet<'a> {
    /// A sheet over this source text, without templates.
    pub fn new(heap: Global, text: &'a [u8]) -> Sheet<'a>
        ensures source { source_in result ≡ text.now }
        ensures templates { templates_of result ≡ [] }
        ensures lists { lists result ≡ record { names = []; cycles = []; nodes = 0; asked = [] } }
    {
        Sheet {
            parser: Parser {
                reader: Reader {
                    source: text,
                    names: Vec::new(heap),
                    cycles: Vec::new(heap),
                    steps: Vec::new(heap),
                    values: Vec::new(heap),
                    filters: Vec::new(heap),
                    nodes: Vec::new(heap),
                    cursor: Cursor::at(text, text.len()),
                    mark: 0,
                },
                cutter: Cutter::at(text, text.len()),
                end: 0,
            },
            templates: Vec::new(heap),
        }
    }

    /// How many templates are loaded.
    pub fn template_count(&self) -> usize
        ensures { result ≡ length (templates_of self.now) }
    {
        self.templates.len()
    }

    /// How many nodes the templates have.
    pub fn node_count(&self) -> usize
        ensures { result ≡ (lists self.now).nodes }
    {
        self.parser.reader.nodes.len()
    }

    /// How many names the sheet has.
    pub fn name_count(&self) -> usize
        ensures { result ≡ length (lists self.now).names }
    {
        self.parser.reader.names.len()
    }

    /// How many cycle names the sheet has.
    pub fn cycle_count(&self) -> usize
        ensures { result ≡ length (lists self.now).cycles }
    {
        self.parser.reader.cycles.len()
    }

    /// Loads the part of `len` bytes at `place` as a template, and tells its number. A part that is refused leaves the sheet as it was.
    #[tactic(auto, using(crate::proofs::GrammarDerived::derived, crate::proofs::GrammarOneWay::one_way, crate::proofs::GrammarOneWay::only_tree, crate::proofs::GrammarAccepted::not_written))]
    pub fn load<B: Bank>(&mut self, place: usize, len: usize, bank: &mut B) -> Result<usize, Stop>
        ensures says { Loads (B.Bank.meaning bank.old).known place len self.old result self.new }
        ensures same { B.Bank.meaning bank.new ≡ B.Bank.meaning bank.old }
        ensures derived { Derived }
        ensures one_way { OneWay }
        ensures only_tree { OnlyTree }
        ensures accepted { Accepted }
        ensures not_written { NotWritten }
        ensures groups_right { GroupsRight }
    {
        let template = self.template_count();
        let whole = self.parser.reader.source.len();
        if place > whole || len > whole - place {
            return Err(Stop::Refused(Refusal::OutsideSource, place));
        }
        if template >= TEMPLATES || len > LONGEST {
            return Err(Stop::Refused(Refusal::Limit, place));
        }
        let old = self.parser.lengths();
        let added = add(
            &mut self.parser,
            &mut self.templates,
            place,
            place + len,
            bank,
        );
        if let Err(stop) = added {
            self.parser.cut_back(old);
            return Err(stop);
        }
        Ok(template)
    }
}
