//! The table, line by line.

use crate::faults::Fault;
use crate::quoted::{first_word, read_text};
use std::alloc::Global;

// A template: a part of the source of its case.
#[derive(Clone, Copy)]
pub(crate) struct Part {
    pub(crate) place: usize,
    pub(crate) len: usize,
}

// What a variable is made.
#[derive(Drop)]
pub(crate) enum Given {
    Nil,
    Boolean(bool),
    Whole(i64),
    Text(Vec<u8>),
}

// A rendering: the number of the template, the tray, whether the bank has phrases too, and the lengths of buffer and trail.
#[derive(Clone, Copy)]
pub(crate) struct Asked {
    pub(crate) number: usize,
    pub(crate) other: bool,
    pub(crate) phrases: bool,
    pub(crate) buffer: usize,
    pub(crate) trail: usize,
}

#[derive(Drop)]
pub(crate) enum Act<'a> {
    // `put NAME VALUE`
    Put(&'a str, Given),
    // `count NAME NUMBER`: a counter is set.
    Count(&'a str, i64),
    // `render NUMBER [other] [sums] [buffer=N] [trail=N]`
    Render(Asked),
    // `variable NAME`, `counter NAME`, `position NUMBER` and `changed`: what the drawers hold.
    Variable(&'a str),
    Counter(&'a str),
    Position(usize),
    Changed,
}

// An act with the answer and the text that are expected, and the number of its line.
#[derive(Drop)]
pub(crate) struct Step<'a> {
    pub(crate) line: usize,
    pub(crate) act: Act<'a>,
    pub(crate) answer: &'a str,
    pub(crate) text: Vec<u8>,
}

// Templates, one behind the other, and what is done with them.
#[derive(Drop)]
pub(crate) struct Case<'a> {
    pub(crate) name: &'a str,
    pub(crate) source: Vec<u8>,
    pub(crate) parts: Vec<Part>,
    pub(crate) steps: Vec<Step<'a>>,
}

pub(crate) fn read_table<'a>(heap: Global, table: &'a str) -> Result<Vec<Case<'a>>, Fault> {
    let mut cases = Vec::new(heap);
    for (before, line) in table.lines().enumerate() {
        read_line(heap, before.saturating_add(1), line, &mut cases)?;
    }
    Ok(cases)
}

// Blank lines and lines that begin with `#` are comments; a line `[NAME]` begins a case.
fn read_line<'a>(
    heap: Global,
    line: usize,
    text: &'a str,
    cases: &mut Vec<Case<'a>>,
) -> Result<(), Fault> {
    if text.is_empty() || text.starts_with('#') {
        return Ok(());
    }
    if let Some(name) = name_in(text) {
        cases.push(Case {
            name,
            source: Vec::new(heap),
            parts: Vec::new(heap),
            steps: Vec::new(heap),
        })?;
        return Ok(());
    }
    let case = cases.last_mut().ok_or(Fault::Line(line))?;
    case.read(heap, line, text)
}

fn name_in(text: &str) -> Option<&str> {
    text.strip_prefix('[')?.strip_suffix(']')
}

impl<'a> Case<'a> {
    // `template TEXT`, or an act.
    fn read(&mut self, heap: Global, line: usize, text: &'a str) -> Result<(), Fault> {
        match text.strip_prefix("template ") {
            Some(form) => self.add_template(heap, line, form),
            None => self.add_step(heap, line, text),
        }
    }

    fn add_template(&mut self, heap: Global, line: usize, form: &str) -> Result<(), Fault> {
        let template = read_text(heap, form)?.ok_or(Fault::Line(line))?;
        self.parts.push(Part {
            place: self.source.len(),
            len: template.len(),
        })?;
        self.source.extend_from_slice(template.as_slice())?;
        Ok(())
    }

    // An act, and behind tabs the answer and the text.
    fn add_step(&mut self, heap: Global, line: usize, text: &'a str) -> Result<(), Fault> {
        let (act, expected) = text.split_once('\t').ok_or(Fault::Line(line))?;
        let (answer, form) = expected.split_once('\t').unwrap_or((expected, ""));
        self.steps.push(Step {
            line,
            act: read_act(heap, act)?.ok_or(Fault::Line(line))?,
            answer,
            text: read_text(heap, form)?.ok_or(Fault::Line(line))?,
        })?;
        Ok(())
    }
}

fn read_act<'a>(heap: Global, text: &'a str) -> Result<Option<Act<'a>>, Fault> {
    let (word, rest) = first_word(text);
    if word != "put" {
        return Ok(short_act(word, rest));
    }
    let (name, form) = first_word(rest);
    match read_given(heap, form)? {
        Some(given) => Ok(Some(Act::Put(name, given))),
        None => Ok(None),
    }
}

fn short_act<'a>(word: &str, rest: &'a str) -> Option<Act<'a>> {
    match word {
        "count" => {
            let (name, number) = first_word(rest);
            Some(Act::Count(name, number.parse().ok()?))
        }
        "render" => Some(Act::Render(read_asked(rest)?)),
        "variable" => Some(Act::Variable(rest)),
        "counter" => Some(Act::Counter(rest)),
        "position" => Some(Act::Position(rest.parse().ok()?)),
        "changed" => Some(Act::Changed),
        _ => None,
    }
}

fn read_given(heap: Global, form: &str) -> Result<Option<Given>, Fault> {
    match form {
        "nil" => Ok(Some(Given::Nil)),
        "true" => Ok(Some(Given::Boolean(true))),
        "false" => Ok(Some(Given::Boolean(false))),
        _ => match form.parse() {
            Ok(number) => Ok(Some(Given::Whole(number))),
            Err(_) => Ok(read_text(heap, form)?.map(Given::Text)),
        },
    }
}

fn read_asked(text: &str) -> Option<Asked> {
    let mut words = text.split(' ');
    let mut asked = Asked {
        number: words.next()?.parse().ok()?,
        other: false,
        phrases: true,
        buffer: 4096,
        trail: 16,
    };
    for word in words {
        asked = asked.with(word)?;
    }
    Some(asked)
}

impl Asked {
    fn with(self, word: &str) -> Option<Asked> {
        match word.split_once('=') {
            Some(("buffer", n)) => Some(Asked {
                buffer: n.parse().ok()?,
                ..self
            }),
            Some(("trail", n)) => Some(Asked {
                trail: n.parse().ok()?,
                ..self
            }),
            Some(_) => None,
            None => self.with_word(word),
        }
    }

    fn with_word(self, word: &str) -> Option<Asked> {
        match word {
            "other" => Some(Asked {
                other: true,
                ..self
            }),
            "sums" => Some(Asked {
                phrases: false,
                ..self
            }),
            _ => None,
        }
    }
}
