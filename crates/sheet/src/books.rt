// What a rendering reads of a sheet.
ghost use Rattle.std.specs.Prelude.{◌≡◌, ◌≤◌, length};
ghost use Rattle.std.specs.List.{slice_get};
ghost use Rattle.std.specs.Option.{option_map};
ghost use Rattle.arguments.specs.Tables.{pool_of};
ghost use Rattle.nodes.specs.Books.{names_in, pool_in};
ghost use Rattle.sheet.specs.Sheets.{lists, templates_of};

use crate::sheet::Sheet;
use crate::templates::Template;
use arguments::reader::CycleName;
use nodes::book::Book;
use tray::parts::cut;

impl<'a> Sheet<'a> {
    /// Its source and its tables.
    pub fn book(&self) -> Book<'_>
        ensures pool { pool_in result ≡ pool_of self.now.parser.reader }
        ensures names { names_in result ≡ (lists self.now).names }
        ensures nodes { result.nodes.now ≡ self.now.parser.reader.nodes.items }
        ensures few_names { length result.names.now ≤ 128 }
        ensures few_cycles { result.cycles ≤ 32 }
    {
        let reader = &self.parser.reader;
        Book {
            source: reader.source,
            names: reader.names.as_slice(),
            cycles: reader.cycles.len(),
            steps: reader.steps.as_slice(),
            values: reader.values.as_slice(),
            filters: reader.filters.as_slice(),
            nodes: reader.nodes.as_slice(),
        }
    }

    /// A template by its number.
    pub fn template(&self, number: usize) -> Option<Template>
        ensures { result ≡ slice_get (templates_of self.now) number }
    {
        self.templates.get(number).copied()
    }

    /// The bytes of a name by its number.
    pub fn name(&self, number: usize) -> Option<&[u8]>
        ensures { option_map (λ b. b.now) result ≡ slice_get (lists self.now).names number }
    {
        let part = self.parser.reader.names.get(number)?;
        Some(cut(self.parser.reader.source, part.place, part.len))
    }

    /// The bytes of a cycle name by its number.
    pub fn cycle_name(&self, number: usize) -> Option<&[u8]>
        ensures { option_map (λ b. b.now) result ≡ option_map (λ c. c.bytes) (slice_get (lists self.now).cycles number) }
    {
        match self.parser.reader.cycles.get(number)? {
            CycleName::Given(bytes) | CycleName::Made(bytes) => Some(bytes.as_slice()),
        }
    }
}
