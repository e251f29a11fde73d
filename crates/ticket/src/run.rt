//! The actions of a job, done one after another.

use crate::console::Console;
use crate::contents::contents;
use crate::filter::apply;
use crate::job::{Action, Job};
use crate::show::show;
use crate::state::State;
use std::io;

// Does them, and tells whether all templates were loaded.
pub(crate) fn run(console: Console<'_>, job: &Job) -> io::Result<bool> {
    let mut state = State::new(console, job)?;
    for action in &job.actions {
        act(&mut state, action)?;
    }
    Ok(state.all_loaded)
}

fn act<'a>(state: &mut State<'a>, action: &'a Action) -> io::Result<()> {
    let console = state.console;
    match action {
        Action::Open(bytes) => state.open_tray(bytes.parts()),
        Action::NotLaidOut(what) => {
            let line = format!(in console.heap(); "not laid out: {what}\n")?;
            console.say(line.as_bytes())
        }
        Action::Show => show(console, &state.tray),
        Action::Phrases(bytes) => state.open_phrases(bytes.parts()),
        Action::Filter(filtering) => apply(console, state.phrases, filtering),
        Action::Template(template) => state.load(template),
        Action::Put(put) => state.put(put),
        Action::Buffer(room) => {
            state.room = *room;
            Ok(())
        }
        Action::Render(name) => state.render(name.as_slice()),
        Action::Drawers => {
            let lines = contents(console.heap(), &state.sheet, &state.drawers)?;
            console.say(lines.as_slice())
        }
        Action::Bench(bench) => state.bench(bench),
    }
}
