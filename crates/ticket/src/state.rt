//! What the actions of a job share.

use crate::console::Console;
use crate::job::{Job, Template, TrayParts};
use crate::json::document::Part;
use crate::load::load;
use drawers::things::Drawers;
use sheet::sheet::Sheet;
use std::alloc::AllocError;
use std::io;
use tray::trays::Tray;

// How many bytes a ticket may have where a job does not say it.
const ROOM: usize = 4096;

// A tray without names.
const NO_NAMES: TrayParts<'static> = TrayParts {
    records: &[5, 0, 0, 0, 0],
    text: &[],
};

// The open tray, the phrases, the sheet with the templates that it has in their order, the drawers, and how many bytes a ticket may have.
#[derive(Drop)]
pub(crate) struct State<'a> {
    pub(crate) console: Console<'a>,
    pub(crate) tray: Tray<'a>,
    pub(crate) phrases: TrayParts<'a>,
    pub(crate) source: &'a [u8],
    pub(crate) sheet: Sheet<'a>,
    pub(crate) templates: Vec<&'a Template>,
    pub(crate) drawers: Drawers,
    pub(crate) room: usize,
    pub(crate) all_loaded: bool,
}

impl<'a> State<'a> {
    // With trays without names, an empty sheet and drawers with nothing in them.
    pub(crate) fn new(console: Console<'a>, job: &'a Job) -> Result<State<'a>, AllocError> {
        let heap = console.heap();
        let source = job.source.as_slice();
        Ok(State {
            console,
            tray: NO_NAMES.open(heap).or(Err(AllocError))?,
            phrases: NO_NAMES,
            source,
            sheet: Sheet::new(heap, source),
            templates: Vec::new(heap),
            drawers: Drawers::new(heap)?,
            room: ROOM,
            all_loaded: true,
        })
    }

    pub(crate) fn open_tray(&mut self, bytes: TrayParts<'a>) -> io::Result<()> {
        if let Some(tray) = open(self.console, "open", bytes)? {
            self.tray = tray;
        }
        Ok(())
    }

    pub(crate) fn open_phrases(&mut self, bytes: TrayParts<'a>) -> io::Result<()> {
        if open(self.console, "phrases", bytes)?.is_some() {
            self.phrases = bytes;
        }
        Ok(())
    }

    pub(crate) fn load(&mut self, template: &'a Template) -> io::Result<()> {
        if load(
            self.console,
            &mut self.sheet,
            self.phrases,
            self.source,
            template,
        )? {
            self.templates.push(template)?;
        } else {
            self.all_loaded = false;
        }
        Ok(())
    }

    // The part of the source that is the template of that number; none where there is no such template.
    pub(crate) fn part(&self, number: usize) -> Part {
        match self.templates.get(number) {
            Some(template) => template.part,
            None => Part { place: 0, len: 0 },
        }
    }
}

// The tray of these bytes; says whether they make one.
fn open<'a>(
    console: Console<'_>,
    what: &str,
    bytes: TrayParts<'a>,
) -> io::Result<Option<Tray<'a>>> {
    let heap = console.heap();
    match bytes.open(heap) {
        Ok(tray) => {
            let line = format!(in heap; "{what} ok records={}\n", tray.count())?;
            console.say(line.as_bytes())?;
            Ok(Some(tray))
        }
        Err(e) => {
            let line = match e.number() {
                Some(n) => format!(in heap; "{what} refused {n}: {e}\n")?,
                None => format!(in heap; "{what} failed: {e}\n")?,
            };
            console.say(line.as_bytes())?;
            Ok(None)
        }
    }
}
