//! A job: one action a line. Blank lines and lines that begin with `#` are comments.

ghost use Rattle.std.specs.Prelude.{◌≡◌, ◌++◌, IfOk, OnOk, [], ◌∷◌, length};
ghost use Rattle.ticket.specs.declared.job.Action.TheVariants as action;

use crate::cursor::Cursor;
use crate::faults::{Fault, JobError, Place};
use crate::json;
use crate::json::document::{Json, Part};
use crate::json::plain::Plain;
use crate::layout::{LayoutError, Unsaid, lay_out};
use crate::spelling::spell_all;
use numerals::read_whole;
use std::alloc::{AllocError, Global};
use std::fs;
use tray::records::OpenError;
use tray::trays::Tray;

// The bytes of a tray: its records, and the text that they cite.
#[derive(Drop)]
pub(crate) struct TrayBytes {
    records: Vec<u8>,
    text: Vec<u8>,
}

impl TrayBytes {
    pub(crate) fn parts(&self) -> TrayParts<'_> {
        TrayParts {
            records: self.records.as_slice(),
            text: self.text.as_slice(),
        }
    }
}

// The same, borrowed.
#[derive(Clone, Copy)]
pub(crate) struct TrayParts<'a> {
    pub(crate) records: &'a [u8],
    pub(crate) text: &'a [u8],
}

impl<'a> TrayParts<'a> {
    pub(crate) fn open(self, heap: Global) -> Result<Tray<'a>, OpenError> {
        Tray::open(heap, self.records, self.text)
    }
}

#[derive(Drop)]
pub(crate) enum Action {
    // `host JSON` or `tray RECORDS-FILE TEXT-FILE`
    Open(TrayBytes),
    // `host JSON`, where the record format cannot say it
    NotLaidOut(Unsaid),
    // `show`
    Show,
    // `phrases JSON`
    Phrases(TrayBytes),
    // `filter NAME JSON [JSON]`
    Filter(Filtering),
    // `template NAME JSON-TEXT` or `template NAME @FILE`
    Template(Template),
    // `put NAME JSON`
    Put(Put),
    // `buffer N`
    Buffer(usize),
    // `render NAME`
    Render(Vec<u8>),
    // `drawers`
    Drawers,
    // `bench N NAME`
    Bench(Bench),
}

// A filter by name, its input and perhaps its argument.
#[derive(Drop)]
pub(crate) struct Filtering {
    pub(crate) name: Vec<u8>,
    pub(crate) input: Json,
    pub(crate) argument: Option<Json>,
}

// A template by name: a part of the source of its job.
#[derive(Drop)]
pub(crate) struct Template {
    pub(crate) name: Vec<u8>,
    pub(crate) part: Part,
}

// A value that a name gets.
#[derive(Drop)]
pub(crate) struct Put {
    pub(crate) name: Vec<u8>,
    pub(crate) value: Plain,
}

// How often a template is rendered.
#[derive(Drop)]
pub(crate) struct Bench {
    pub(crate) times: usize,
    pub(crate) name: Vec<u8>,
}

// The actions of a job, and the source: the templates of all of them, one behind the other.
#[derive(Drop)]
pub(crate) struct Job {
    pub(crate) actions: Vec<Action>,
    pub(crate) source: Vec<u8>,
}

impl Job {
    pub(crate) fn new(heap: Global) -> Job {
        Job {
            actions: Vec::new(heap),
            source: Vec::new(heap),
        }
    }

    // Reads the actions of `text`, up to the first line that is none.
    pub(crate) fn read(&mut self, rt: &HostRuntime, text: &[u8]) -> Result<(), JobError> {
        for (number, line) in text.split(|b| *b == b'\n').enumerate() {
            let mut cursor = Cursor::new(number, line);
            cursor.skip_blanks();
            // A line with nothing on it, or a comment, has no action.
            if !matches!(cursor.peek(), None | Some(b'#')) {
                self.actions
                    .push(read_action(rt, cursor, &mut self.source)?)?;
            }
        }
        Ok(())
    }

    // One more action, `template NAME` with these bytes.
    pub(crate) fn add(&mut self, name: Vec<u8>, bytes: &[u8]) -> Result<(), AllocError>
        ensures source { OnOk result (self.new.source.items ≡ self.old.source.items ++ bytes.now) }
        ensures action { OnOk result (self.new.actions.items ≡ self.old.actions.items ++ action.Template (record { name = name; part = record { place = length self.old.source.items; len = length bytes.now } }) ∷ []) }
    {
        let part = join_source(&mut self.source, bytes)?;
        self.actions
            .push(Action::Template(Template { name, part }))?;
        Ok(())
    }
}

// The action of a line whose first word is ahead.
fn read_action(
    rt: &HostRuntime,
    mut cursor: Cursor<'_>,
    source: &mut Vec<u8>,
) -> Result<Action, JobError> {
    let at = cursor.at();
    // A `match` on the words of a language is its table; closures would say no more.
    let action = match cursor.word() {
        b"host" => read_object(rt.alloc(), cursor, Action::Open)?,
        b"tray" => read_tray(rt, cursor)?,
        b"show" => {
            cursor.end()?;
            Action::Show
        }
        b"phrases" => read_object(rt.alloc(), cursor, Action::Phrases)?,
        b"filter" => read_filter(rt.alloc(), cursor)?,
        b"template" => Action::Template(read_template(rt, cursor, source)?),
        b"put" => Action::Put(read_put(rt.alloc(), cursor)?),
        b"buffer" => Action::Buffer(read_buffer(cursor)?),
        b"render" => Action::Render(read_last(rt.alloc(), cursor)?),
        b"drawers" => {
            cursor.end()?;
            Action::Drawers
        }
        b"bench" => Action::Bench(read_bench(rt.alloc(), cursor)?),
        _ => return Err(at.bad(Fault::UnknownWord)),
    };
    Ok(action)
}

// The next word and its place; a fault where the line ends before one.
fn next_word<'a>(cursor: &mut Cursor<'a>, missing: Fault) -> Result<(Place, &'a [u8]), JobError> {
    cursor.skip_blanks();
    let at = cursor.at();
    match cursor.word() {
        [] => Err(at.bad(missing)),
        word => Ok((at, word)),
    }
}

// What to do with the bytes of a tray that holds the object ahead, or what its records cannot say.
fn read_object<F: FnOnce(TrayBytes) -> Action>(
    heap: Global,
    cursor: Cursor<'_>,
    make: F,
) -> Result<Action, JobError>
    requires { F.IsAlwaysCallable make }
{
    let host = json::read(heap, cursor)?;
    match lay_out(heap, &host) {
        Ok(records) => Ok(make(TrayBytes {
            records: spell_all(heap, records.as_slice())?,
            text: host.texts,
        })),
        Err(LayoutError::Unsaid(what)) => Ok(Action::NotLaidOut(what)),
        Err(LayoutError::Memory(e)) => Err(JobError::Memory(e)),
    }
}

fn read_filter(heap: Global, mut cursor: Cursor<'_>) -> Result<Action, JobError> {
    let (_, word) = next_word(&mut cursor, Fault::NoFilter)?;
    let name = Vec::from_slice(heap, word)?;
    let input = json::read_value(heap, &mut cursor)?;
    let argument = read_argument(heap, &mut cursor)?;
    cursor.end()?;
    Ok(Action::Filter(Filtering {
        name,
        input,
        argument,
    }))
}

// The value ahead, where there is one.
fn read_argument(heap: Global, cursor: &mut Cursor<'_>) -> Result<Option<Json>, JobError> {
    cursor.skip_blanks();
    match cursor.peek() {
        None => Ok(None),
        Some(_) => Ok(Some(json::read_value(heap, cursor)?)),
    }
}

fn read_template(
    rt: &HostRuntime,
    mut cursor: Cursor<'_>,
    source: &mut Vec<u8>,
) -> Result<Template, JobError> {
    let (_, word) = next_word(&mut cursor, Fault::NoTemplate)?;
    let name = Vec::from_slice(rt.alloc(), word)?;
    let part = read_part(rt, &mut cursor, source)?;
    cursor.end()?;
    Ok(Template { name, part })
}

fn read_put(heap: Global, mut cursor: Cursor<'_>) -> Result<Put, JobError> {
    let (_, word) = next_word(&mut cursor, Fault::NoName)?;
    let name = Vec::from_slice(heap, word)?;
    cursor.skip_blanks();
    let at = cursor.at();
    let json = json::read_value(heap, &mut cursor)?;
    let value = json.into_plain().ok_or(at.bad(Fault::NoDatum))?;
    cursor.end()?;
    Ok(Put { name, value })
}

fn read_buffer(mut cursor: Cursor<'_>) -> Result<usize, JobError> {
    let len = read_count(&mut cursor)?;
    cursor.end()?;
    Ok(len)
}

fn read_bench(heap: Global, mut cursor: Cursor<'_>) -> Result<Bench, JobError> {
    let times = read_count(&mut cursor)?;
    let name = read_last(heap, cursor)?;
    Ok(Bench { times, name })
}

// The template name ahead, with nothing behind it.
fn read_last(heap: Global, mut cursor: Cursor<'_>) -> Result<Vec<u8>, JobError> {
    let (_, word) = next_word(&mut cursor, Fault::NoTemplate)?;
    let name = Vec::from_slice(heap, word)?;
    cursor.end()?;
    Ok(name)
}

// The number ahead, from 0 on.
fn read_count(cursor: &mut Cursor<'_>) -> Result<usize, JobError> {
    let (at, word) = next_word(cursor, Fault::NoCount)?;
    read_whole(word)
        .and_then(|n| usize::try_from(n).ok())
        .ok_or(at.bad(Fault::NoCount))
}

// The text ahead, or that of the file ahead; it joins the source.
fn read_part(
    rt: &HostRuntime,
    cursor: &mut Cursor<'_>,
    source: &mut Vec<u8>,
) -> Result<Part, JobError> {
    cursor.skip_blanks();
    if cursor.take_if(b'@') {
        let bytes = read_file(rt, cursor)?;
        return Ok(join_source(source, bytes.as_slice())?);
    }
    if !cursor.take_if(b'"') {
        return Err(cursor.at().bad(Fault::NoTemplateText));
    }
    cursor.text(source)
}

// The part that these bytes become at the end of the source.
fn join_source(source: &mut Vec<u8>, bytes: &[u8]) -> Result<Part, AllocError>
    ensures source { OnOk result (source.new.items ≡ source.old.items ++ bytes.now) }
    ensures part { IfOk result (λ p. (p.place ≡ length source.old.items) × (p.len ≡ length bytes.now)) }
{
    let place = source.len();
    source.extend_from_slice(bytes)?;
    Ok(Part {
        place,
        len: bytes.len(),
    })
}

fn read_tray(rt: &HostRuntime, mut cursor: Cursor<'_>) -> Result<Action, JobError> {
    let records = read_file(rt, &mut cursor)?;
    let text = read_file(rt, &mut cursor)?;
    cursor.end()?;
    Ok(Action::Open(TrayBytes { records, text }))
}

// The bytes of the file that the next word names.
fn read_file(rt: &HostRuntime, cursor: &mut Cursor<'_>) -> Result<Vec<u8>, JobError> {
    let (at, word) = next_word(cursor, Fault::NoFileName)?;
    let name = std::str::from_utf8(word).or(Err(at.bad(Fault::FileName)))?;
    fs::read(rt, name).or(Err(at.bad(Fault::Unreadable)))
}
