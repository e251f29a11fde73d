//! Templates loaded into the sheet of a job.

ghost use Rattle.std.specs.Prelude.{◌≡◌, ◌-◌, ◌++◌, IfOk, OnOk};
ghost use Rattle.sheet.specs.Sheets.{lists, Loads};
ghost use Rattle.ticket.specs.Load.{load_lines, answer_words, loaded_words, refused_words};
ghost use Rattle.ticket.specs.Loaded.{known, number};

use crate::console::Console;
use crate::excerpt::{push_excerpt, push_place, push_plain, spot_at};
use crate::filter::bank_of;
use crate::job::{Template, TrayParts};
use crate::json::document::Part;
use arguments::refusals::{Refusal, Stop};
use sheet::sheet::Sheet;
use std::alloc::{AllocError, Global};
use std::io;
use tray::parts::cut;

// The number of a template in its sheet, and of its nodes.
#[derive(Clone, Copy)]
struct Loaded {
    template: usize,
    nodes: usize,
}

// Loads a template, prints its numbers or why it is refused, and tells whether it was loaded.
pub(crate) fn load(
    console: Console<'_>,
    sheet: &mut Sheet<'_>,
    phrases: TrayParts<'_>,
    source: &[u8],
    template: &Template,
) -> io::Result<bool> {
    let answer = answer(console.heap(), sheet, phrases, template.part);
    let lines = answer_lines(console.heap(), source, template, answer)?;
    console.say(lines.as_slice())?;
    Ok(answer.is_ok())
}

// Its filters are those that the action `filter` knows.
fn answer(
    heap: Global,
    sheet: &mut Sheet<'_>,
    phrases: TrayParts<'_>,
    part: Part,
) -> Result<Loaded, Stop>
    ensures loads { Loads known part.place part.len sheet.old (number result) sheet.new }
    ensures nodes { IfOk result (λ l. l.nodes ≡ (lists sheet.new).nodes - (lists sheet.old).nodes) }
{
    let mut bank = bank_of(heap, phrases).or(Err(Stop::Memory))?;
    let before = sheet.node_count();
    let template = sheet.load(part.place, part.len, &mut bank)?;
    let nodes = sheet.node_count().saturating_sub(before);
    Ok(Loaded { template, nodes })
}

fn answer_lines(
    heap: Global,
    source: &[u8],
    template: &Template,
    answer: Result<Loaded, Stop>,
) -> Result<Vec<u8>, AllocError>
    ensures { IfOk result (λ v. v.items ≡ load_lines source.now template.now.part template.now.name.items answer) }
{
    let mut lines = Vec::from_slice(heap, b"load ")?;
    push_plain(&mut lines, template.name.as_slice())?;
    push_answer(heap, &mut lines, source, template.part, answer)?;
    Ok(lines)
}

fn push_answer(
    heap: Global,
    lines: &mut Vec<u8>,
    source: &[u8],
    part: Part,
    answer: Result<Loaded, Stop>,
) -> Result<(), AllocError>
    ensures { OnOk result (lines.new.items ≡ lines.old.items ++ answer_words source.now part answer) }
{
    match answer {
        Ok(loaded) => push_loaded(heap, lines, loaded),
        Err(Stop::Refused(refusal, place)) => {
            let text = cut(source, part.place, part.len);
            push_refused(heap, lines, refusal, place.saturating_sub(part.place), text)
        }
        Err(Stop::Memory) => lines.extend_from_slice(b" failed: no memory\n"),
    }
}

fn push_loaded(heap: Global, lines: &mut Vec<u8>, loaded: Loaded) -> Result<(), AllocError>
    ensures { OnOk result (lines.new.items ≡ lines.old.items ++ loaded_words loaded) }
{
    let Loaded { template, nodes } = loaded;
    let words = format!(in heap; " ok template={template} nodes={nodes}\n")?;
    lines.extend_from_slice(words.as_bytes())
}

// A refusal at a place in a template, and the line of the place.
fn push_refused(
    heap: Global,
    lines: &mut Vec<u8>,
    refusal: Refusal,
    place: usize,
    text: &[u8],
) -> Result<(), AllocError>
    ensures { OnOk result (lines.new.items ≡ lines.old.items ++ refused_words refusal place text.now) }
{
    let spot = spot_at(text, place);
    let number = refusal.number();
    let refused = format!(in heap; " refused {number}")?;
    lines.extend_from_slice(refused.as_bytes())?;
    push_place(heap, lines, place, spot)?;
    let words = refusal.words();
    let said = format!(in heap; ": {words}\n")?;
    lines.extend_from_slice(said.as_bytes())?;
    push_excerpt(lines, spot)
}
