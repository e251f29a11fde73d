//! Where a job prints.

use std::alloc::Global;
use std::io;
use std::io::Write;

// Standard output has the lines of actions; or it has nothing but the text of tickets, and standard error has the lines.
#[derive(Clone, Copy)]
pub(crate) struct Console<'a> {
    pub(crate) rt: &'a HostRuntime,
    pub(crate) only_text: bool,
}

impl<'a> Console<'a> {
    pub(crate) fn of_lines(rt: &'a HostRuntime) -> Console<'a> {
        Console {
            rt,
            only_text: false,
        }
    }

    pub(crate) fn of_text(rt: &'a HostRuntime) -> Console<'a> {
        Console {
            rt,
            only_text: true,
        }
    }

    pub(crate) fn heap(self) -> Global {
        self.rt.alloc()
    }

    // Prints lines of an action.
    pub(crate) fn say(self, lines: &[u8]) -> io::Result<()> {
        if self.only_text {
            self.rt.stderr().write_all(lines)
        } else {
            self.rt.stdout().write_all(lines)
        }
    }

    // Prints the text of a ticket, where there is nothing else.
    pub(crate) fn print(self, text: &[u8]) -> io::Result<()> {
        if self.only_text {
            self.rt.stdout().write_all(text)
        } else {
            Ok(())
        }
    }
}
