//! A place in a line of a job.

ghost use Rattle.std.specs.Prelude.{◌≡◌, ◌+◌, ◌-◌, ◌≤◌, length, is_some, nat_lt};

use crate::faults::{Fault, JobError, Place};

// What is left of a line, how long the whole is, and the number of the line.
#[derive(Drop)]
pub(crate) struct Cursor<'a> {
    rest: &'a [u8],
    whole: usize,
    line: usize,
    ghost within: { length rest.now ≤ whole },
}

impl<'a> Cursor<'a> {
    pub(crate) fn new(line: usize, src: &'a [u8]) -> Cursor<'a> {
        Cursor {
            rest: src,
            whole: src.len(),
            line,
        }
    }

    // The place of the next byte.
    pub(crate) fn at(&self) -> Place {
        Place {
            line: self.line,
            before: self.whole - self.rest.len(),
        }
    }

    pub(crate) fn rest(&self) -> &'a [u8]
        ensures { result.now ≡ self.now.rest.now }
    {
        self.rest
    }

    pub(crate) fn peek(&self) -> Option<u8>
        ensures { is_some result ≡ nat_lt 0 (length self.now.rest.now) }
    {
        self.rest.first().copied()
    }

    // Takes the next byte.
    pub(crate) fn take(&mut self) -> Option<u8>
        ensures some { is_some result ≡ nat_lt 0 (length self.old.rest.now) }
        ensures left { length self.new.rest.now ≡ length self.old.rest.now - 1 }
    {
        let (first, rest) = self.rest.split_first()?;
        self.rest = rest;
        Some(*first)
    }

    // Takes the next byte if it is `b`.
    pub(crate) fn take_if(&mut self, b: u8) -> bool
        ensures { length self.new.rest.now ≤ length self.old.rest.now }
    {
        let found = self.peek() == Some(b);
        if found {
            self.take();
        }
        found
    }

    // Takes these bytes if they are next.
    pub(crate) fn take_all(&mut self, bytes: &[u8]) -> bool
        ensures { length self.new.rest.now ≤ length self.old.rest.now }
    {
        match self.rest.strip_prefix(bytes) {
            Some(rest) => {
                self.rest = rest;
                true
            }
            None => false,
        }
    }

    // Takes the bytes up to the first that fails the test, or to the end.
    pub(crate) fn take_while<F: Fn(u8) -> bool>(&mut self, test: F) -> &'a [u8]
        requires { F.IsAlwaysCallable test }
        ensures { length self.new.rest.now + length result.now ≡ length self.old.rest.now }
    {
        let len = self
            .rest
            .iter()
            .position(|b| !test(*b))
            .unwrap_or(self.rest.len());
        let (taken, rest) = self.rest.split_at(len);
        self.rest = rest;
        taken
    }

    pub(crate) fn skip_blanks(&mut self)
        ensures { length self.new.rest.now ≤ length self.old.rest.now }
    {
        self.take_while(is_blank);
    }

    // A fault where anything but blanks is left.
    pub(crate) fn end(mut self) -> Result<(), JobError> {
        self.skip_blanks();
        match self.peek() {
            None => Ok(()),
            Some(_) => Err(self.at().bad(Fault::LeftOver)),
        }
    }

    // Takes the bytes up to the next blank or the end.
    pub(crate) fn word(&mut self) -> &'a [u8]
        ensures { length self.new.rest.now ≤ length self.old.rest.now }
    {
        self.take_while(|b| !is_blank(b))
    }
}

fn is_blank(b: u8) -> bool {
    matches!(b, b' ' | b'\t' | b'\r' | b'\n')
}
