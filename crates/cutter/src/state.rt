// How far the piece under the cutter has been read, and what one more byte brings.
ghost use Rattle.std.specs.Prelude.{◌≡◌};
ghost use Rattle.cutter.specs.Scan.{stepped};

/// A tag stands between `{%` and `%}`, an output between `{{` and `}}`.
#[derive(Clone, Copy, Debug, PartialEq, Eq)]
pub enum Kind {
    Tag,
    Output,
}

// In text, behind a `{` of it, in a mark outside quotes, behind the first byte of its closing mark there, or in a quotation by that quote.
#[derive(Clone, Copy, Debug, PartialEq, Eq)]
pub enum State {
    Text,
    Brace,
    Inside(Kind),
    Closing(Kind),
    Quoted(Kind, u8),
}

// What the byte does: it goes on with the piece, makes an opening mark whole, or a closing one.
#[derive(Clone, Copy, Debug, PartialEq, Eq)]
pub enum Event {
    Goes,
    Opens,
    Closes(Kind),
}

impl State {
    pub(crate) fn step(&mut self, b: u8) -> Event
        ensures { (self.new, result) ≡ stepped self.old b }
    {
        let (next, event) = match (*self, b) {
            (State::Text, b'{') => (State::Brace, Event::Goes),
            (State::Text, _) => (State::Text, Event::Goes),
            (State::Brace, b'%') => (State::Inside(Kind::Tag), Event::Opens),
            (State::Brace, b'{') => (State::Inside(Kind::Output), Event::Opens),
            (State::Brace, _) => (State::Text, Event::Goes),
            (State::Inside(kind), b'\'' | b'"') => (State::Quoted(kind, b), Event::Goes),
            (State::Inside(Kind::Tag), b'%') => (State::Closing(Kind::Tag), Event::Goes),
            (State::Inside(Kind::Output), b'}') => (State::Closing(Kind::Output), Event::Goes),
            (State::Inside(kind), _) => (State::Inside(kind), Event::Goes),
            (State::Closing(kind), b'}') => (State::Text, Event::Closes(kind)),
            (State::Closing(Kind::Tag), b'%') => (State::Closing(Kind::Tag), Event::Goes),
            (State::Closing(kind), b'\'' | b'"') => (State::Quoted(kind, b), Event::Goes),
            (State::Closing(kind), _) => (State::Inside(kind), Event::Goes),
            (State::Quoted(kind, quote), _) if b == quote => (State::Inside(kind), Event::Goes),
            (State::Quoted(kind, quote), _) => (State::Quoted(kind, quote), Event::Goes),
        };
        *self = next;
        event
    }
}
