// Names, filters and nodes that enter the tables.
ghost use Rattle.std.specs.Prelude.{◌≡◌, ◌<◌, ◌≤◌, map, length, IfSome};
ghost use Rattle.rows.specs.First.{first_from};
ghost use Rattle.tray.specs.Parts.{same_text};
ghost use Rattle.arguments.specs.Judging.{enter, same_cycle, enter_cycle};
ghost use Rattle.arguments.specs.Tables.{part_in, cycle_of, given_name, made_name, under, Said, Grown, Below};

use crate::reader::names::NameBytes;
use crate::reader::{CycleName, Reader};
use crate::refusals::{Refusal, Stop};
use nodes::exprs::Part;
use tray::parts::{cut, same_text};

const NAMES: usize = 128;

const LONGEST: usize = 32;

const CYCLES: usize = 32;

// The bytes of a part of the source.
pub fn part_in<'a>(source: &'a [u8], part: Part) -> &'a [u8]
    ensures { result.now ≡ part_in source.now part }
{
    cut(source, part.place, part.len)
}

fn same_cycle(a: &CycleName, b: &CycleName) -> bool
    ensures { result ≡ same_cycle (cycle_of a.now) (cycle_of b.now) }
{
    match (a, b) {
        (CycleName::Given(a), CycleName::Given(b)) | (CycleName::Made(a), CycleName::Made(b)) => {
            same_text(a.as_slice(), b.as_slice())
        }
        _ => false,
    }
}

impl<'a> Reader<'a> {
    // The number of the name with these bytes.
    fn number_of(&self, name: &[u8]) -> Option<usize>
        ensures is { result ≡ first_from (λ m. same_text m name.now) 0 (map (part_in self.now.source.now) self.now.names.items) }
        ensures below { IfSome result (λ k. k < length self.now.names.items) }
    {
        let source = self.source;
        self.names
            .iter()
            .position(|part| same_text(part_in(source, *part), name))
    }

    /// The number of the name that the part spells, which enters where it is new; what is refused has the place `place`.
    pub fn enter(&mut self, place: usize, part: Part) -> Result<usize, Stop>
        ensures says { Said result (enter place (part_in self.old.source.now part) (under self.old)) (Below (length self.new.names.items)) (under self.new) }
        ensures grown { Grown self.old self.new }
    {
        let bytes = part_in(self.source, part);
        if let Some(k) = self.number_of(bytes) {
            return Ok(k);
        }
        let k = self.names.len();
        if bytes.len() > LONGEST || k >= NAMES {
            return Err(Stop::Refused(Refusal::Limit, place));
        }
        self.names.push(part)?;
        Ok(k)
    }
    // The number of this cycle name.
    fn cycle_number(&self, name: CycleName) -> Option<usize>
        ensures is { result ≡ first_from (λ d. same_cycle d (cycle_of name)) 0 (map cycle_of self.now.cycles.items) }
        ensures below { IfSome result (λ k. k < length self.now.cycles.items) }
    {
        self.cycles
            .iter()
            .position(|cycle| same_cycle(cycle, &name))
    }

    // The number of the cycle name, which enters where it is new; what is refused has the place `place`.
    fn enter_cycle(&mut self, place: usize, name: CycleName) -> Result<usize, Stop>
        requires { length (cycle_of name).bytes ≤ 128 }
        ensures says { Said result (enter_cycle place (cycle_of name) (under self.old)) (Below (length self.new.cycles.items)) (under self.new) }
        ensures grown { Grown self.old self.new }
    {
        if let Some(k) = self.cycle_number(name) {
            return Ok(k);
        }
        let k = self.cycles.len();
        if k >= CYCLES {
            return Err(Stop::Refused(Refusal::Limit, place));
        }
        self.cycles.push(name)?;
        Ok(k)
    }

    /// The number of the cycle name that is given by these bytes, which enters where it is new; what is refused has the place `place`.
    pub fn enter_given(&mut self, place: usize, bytes: &[u8]) -> Result<usize, Stop>
        ensures says { Said result (enter_cycle place (given_name bytes.now) (under self.old)) (Below (length self.new.cycles.items)) (under self.new) }
        ensures grown { Grown self.old self.new }
    {
        let name = NameBytes::new(bytes).ok_or(Stop::Refused(Refusal::Limit, place))?;
        self.enter_cycle(place, CycleName::Given(name))
    }

    /// The same of one that is made of values.
    pub fn enter_made(&mut self, place: usize, bytes: &[u8]) -> Result<usize, Stop>
        ensures says { Said result (enter_cycle place (made_name bytes.now) (under self.old)) (Below (length self.new.cycles.items)) (under self.new) }
        ensures grown { Grown self.old self.new }
    {
        let name = NameBytes::new(bytes).ok_or(Stop::Refused(Refusal::Limit, place))?;
        self.enter_cycle(place, CycleName::Made(name))
    }
}
