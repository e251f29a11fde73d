//! The calls of a job are made.

use crate::calls::{Asked, call_line, text_in};
use crate::console::Console;
use crate::excerpt::push_plain;
use crate::filter::bank_of;
use crate::found::number_of;
use crate::job::{Bench, Put};
use crate::state::State;
use banks::bank::Bank;
use drawers::things::Drawers;
use frames::frame::TrailRecord;
use renderer::call::{Call, Page, Putting, run};
use renderer::calls::{Refused, render};
use sheet::sheet::Sheet;
use std::alloc::{AllocError, Global};
use std::io;
use std::time::Instant;
use tray::parts::cut;
use tray::trays::Tray;

// How many records a trail has.
const RECORDS: usize = 16;

impl<'a> State<'a> {
    // Puts a value, and prints what came of it.
    pub(crate) fn put(&mut self, put: &Put) -> io::Result<()> {
        let mut bank = bank_of(self.console.heap(), self.phrases).or(Err(AllocError))?;
        let mut calls = [Call::Put(Putting {
            name: put.name.as_slice(),
            datum: put.value.datum(),
            answer: Err(Refused::NotPut),
        })];
        run(&self.sheet, &mut self.drawers, &mut bank, &mut calls);
        say(self.console, Asked::nothing(), &calls[0])
    }

    // Renders the template of a name, and prints what came of it.
    pub(crate) fn render(&mut self, name: &'a [u8]) -> io::Result<()> {
        let console = self.console;
        let number = number_of(self.templates.as_slice(), name);
        let part = self.part(number);
        let asked = Asked {
            name,
            place: part.place,
            text: cut(self.source, part.place, part.len),
        };
        let mut bank = bank_of(console.heap(), self.phrases).or(Err(AllocError))?;
        let calls = rendered(
            console.heap(),
            &self.sheet,
            &mut self.drawers,
            &mut bank,
            number,
            &self.tray,
            self.room,
        )?;
        say(console, asked, &calls[0])
    }

    // Renders the template of a name again and again, and prints how long one rendering takes.
    pub(crate) fn bench(&mut self, bench: &Bench) -> io::Result<()> {
        let heap = self.console.heap();
        let mut bank = bank_of(heap, self.phrases).or(Err(AllocError))?;
        let number = number_of(self.templates.as_slice(), bench.name.as_slice());
        let mut buffer = vec![in heap; 0; self.room]?;
        let mut trail = [TrailRecord::Blank; RECORDS];
        let start = Instant::now(self.console.rt)?;
        for _ in 0..bench.times {
            // What comes of it is what `render` prints.
            let _ = render(
                &self.sheet,
                number,
                &self.tray,
                &mut self.drawers,
                &mut bank,
                buffer.as_mut_slice(),
                &mut trail,
            );
        }
        let elapsed = start.elapsed(self.console.rt)?;
        self.say_speed(bench, elapsed.as_nanos())
    }

    fn say_speed(&self, bench: &Bench, nanoseconds: u128) -> io::Result<()> {
        let heap = self.console.heap();
        let times = bench.times;
        let each = nanoseconds / times.max(1) as u128;
        let mut line = format!(in heap; "bench {times} ")?.into_bytes();
        push_plain(&mut line, bench.name.as_slice())?;
        let speed = format!(in heap; " ns/render={each}\n")?;
        line.extend_from_slice(speed.as_bytes())?;
        self.console.say(line.as_slice())
    }
}

// One call, which renders a template: made, with its result.
fn rendered<'b, B: Bank>(
    heap: Global,
    sheet: &Sheet<'_>,
    drawers: &mut Drawers,
    bank: &mut B,
    number: usize,
    tray: &'b Tray<'b>,
    room: usize,
) -> Result<[Call<'b>; 1], AllocError> {
    let mut calls = [Call::Render(Page {
        number,
        tray,
        buffer: vec![in heap; 0; room]?,
        trail: vec![in heap; TrailRecord::Blank; RECORDS]?,
        answer: Err(Refused::NotRendered),
    })];
    run(sheet, drawers, bank, &mut calls);
    Ok(calls)
}

fn say(console: Console<'_>, asked: Asked<'_>, call: &Call<'_>) -> io::Result<()> {
    let line = call_line(console.heap(), asked, call)?;
    console.say(line.as_slice())?;
    match call {
        Call::Put(_) => Ok(()),
        Call::Render(page) => console.print(text_in(page.buffer.as_slice())),
    }
}
