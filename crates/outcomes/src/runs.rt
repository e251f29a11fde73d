//! The acts of a case, one after the other.

use crate::answers::Answer;
use crate::cases::{Act, Asked, Case, Given, Step};
use crate::memory::{MARK, MARKED, Page};
use crate::trays::Trays;
use arguments::refusals::Stop;
use banks::bank::Bank;
use banks::joined::join;
use banks::phrases::Phrases;
use banks::sums::Sums;
use drawers::things::Drawers;
use renderer::calls::{Datum, put, render};
use sheet::sheet::Sheet;
use std::alloc::{AllocError, Global};
use std::io::Write;
use tray::parts::same_text;

// What the acts of a case act on.
#[derive(Drop)]
struct Stage<'a> {
    heap: Global,
    trays: &'a Trays,
    case: &'a Case<'a>,
    sheet: Sheet<'a>,
    drawers: Drawers,
}

// Makes the acts, says which come out otherwise than is expected, and answers how many.
pub(crate) fn run_case(rt: &HostRuntime, trays: &Trays, case: &Case<'_>) -> anyhow::Result<usize> {
    let heap = rt.alloc();
    let mut stage = Stage {
        heap,
        trays,
        case,
        sheet: Sheet::new(heap, case.source.as_slice()),
        drawers: Drawers::new(heap)?,
    };
    let mut wrong = stage.load(rt)?;
    for step in &case.steps {
        let answer = stage.answer(&step.act)?;
        if !answer.is(step.answer, step.text.as_slice()) {
            wrong = wrong.saturating_add(1);
            tell(rt, case.name, step, &answer)?;
        }
    }
    Ok(wrong)
}

fn tell(rt: &HostRuntime, name: &str, step: &Step<'_>, answer: &Answer) -> anyhow::Result<()> {
    let line = format!(in rt.alloc();
        "line {}, {name}: expected {}, found {} ",
        step.line, step.answer, answer.words
    )?;
    let mut out = rt.stdout();
    out.write_all(line.as_bytes())?;
    out.write_all(answer.text.as_slice())?;
    out.write_all(b"\n")?;
    Ok(())
}

impl<'a> Stage<'a> {
    // Loads the templates, says which are refused, and answers how many.
    fn load(&mut self, rt: &HostRuntime) -> anyhow::Result<usize> {
        let mut bank = join(Sums, Phrases::new(self.trays.first.open(self.heap)?));
        let mut wrong = 0usize;
        for part in &self.case.parts {
            let name = self.case.name;
            match self.sheet.load(part.place, part.len, &mut bank) {
                Ok(_) => {}
                Err(Stop::Refused(refusal, place)) => {
                    wrong = wrong.saturating_add(1);
                    println!(rt;
                        "{name}: a template is refused {} at {place}",
                        refusal.number()
                    )?;
                }
                Err(Stop::Memory) => return Err(AllocError.into()),
            }
        }
        Ok(wrong)
    }

    fn answer(&mut self, act: &Act<'_>) -> anyhow::Result<Answer> {
        match act {
            Act::Put(name, given) => Ok(self.put(name, given)?),
            Act::Count(name, n) => Ok(self.count(name, *n)?),
            Act::Render(asked) => self.render(asked),
            Act::Variable(name) => Ok(self.variable(name)?),
            Act::Counter(name) => Ok(self.counter(name)?),
            Act::Position(number) => {
                let position = self.drawers.position(*number);
                Ok(Answer::words(self.heap, format!(in self.heap; "{position}")?))
            }
            Act::Changed => { Ok(Answer::new(self.heap, "", self.drawers.changed())?) }
        }
    }

    fn put(&mut self, name: &str, given: &Given) -> Result<Answer, AllocError> {
        let datum = match given {
            Given::Nil => Datum::Nil,
            Given::Boolean(b) => Datum::Boolean(*b),
            Given::Whole(n) => Datum::Whole(*n),
            Given::Text(text) => Datum::Text(text.as_slice()),
        };
        match put(&self.sheet, &mut self.drawers, name.as_bytes(), datum) {
            Ok(()) => Answer::new(self.heap, "ok", b""),
            Err(refused) => Answer::refused(self.heap, refused.number()),
        }
    }

    fn count(&mut self, name: &str, n: i64) -> Result<Answer, AllocError> {
        if let Some(number) = self.number(name) {
            self.drawers.set_counter(number, n);
        }
        Answer::new(self.heap, "ok", b"")
    }

    fn number(&self, name: &str) -> Option<usize> {
        (0..self.sheet.name_count()).find(|&k| {
            self.sheet
                .name(k)
                .is_some_and(|bytes| same_text(bytes, name.as_bytes()))
        })
    }

    fn variable(&self, name: &str) -> Result<Answer, AllocError> {
        let value = self.number(name).and_then(|n| self.drawers.variable(n));
        Answer::variable(self.heap, value)
    }

    fn counter(&self, name: &str) -> Result<Answer, AllocError> {
        match self.number(name).and_then(|n| self.drawers.counter(n)) {
            Some(n) => Ok(Answer::words(self.heap, format!(in self.heap; "{n}")?)),
            None => Answer::new(self.heap, "nothing", b""),
        }
    }

    fn render(&mut self, asked: &Asked) -> anyhow::Result<Answer> {
        if asked.phrases {
            let mut bank = join(Sums, Phrases::new(self.trays.first.open(self.heap)?));
            self.render_with(asked, &mut bank)
        } else {
            self.render_with(asked, &mut Sums)
        }
    }

    // The buffer and the trail are full of marks before.
    fn render_with<B: Bank>(&mut self, asked: &Asked, bank: &mut B) -> anyhow::Result<Answer> {
        let tray = self.trays.of(asked.other).open(self.heap)?;
        let mut buffer = Vec::from_elem(self.heap, MARK, asked.buffer)?;
        let mut trail = Vec::from_elem(self.heap, MARKED, asked.trail)?;
        let answer = render(
            &self.sheet,
            asked.number,
            &tray,
            &mut self.drawers,
            bank,
            buffer.as_mut_slice(),
            trail.as_mut_slice(),
        );
        let page = Page {
            from: self
                .case
                .parts
                .get(asked.number)
                .map_or(0, |part| part.place),
            buffer: buffer.as_slice(),
            trail: trail.as_slice(),
        };
        Ok(page.answer(self.heap, answer)?)
    }
}
