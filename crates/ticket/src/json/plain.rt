//! JSON values that a name can get.

ghost use Rattle.std.specs.Prelude.{◌≡◌};
ghost use Rattle.renderer.specs.Calls.{datum_of};
ghost use Rattle.ticket.specs.Plain.{plain_in, plain_datum};

use crate::json::document::{Json, Kind};
use renderer::calls::Datum;

// A value with no others in it.
#[derive(Drop)]
pub(crate) enum Plain {
    Nil,
    Flag(bool),
    Whole(i64),
    Text(Vec<u8>),
}

impl Json {
    // The value, where no others are in it.
    pub(crate) fn into_plain(self) -> Option<Plain>
        ensures { result ≡ plain_in self }
    {
        let Json { nodes, texts } = self;
        match nodes.first()?.kind {
            Kind::Nil => Some(Plain::Nil),
            Kind::Flag(b) => Some(Plain::Flag(b)),
            Kind::Whole(n) => Some(Plain::Whole(n)),
            Kind::Text(_) => Some(Plain::Text(texts)),
            Kind::Array(_) | Kind::Object(_) => None,
        }
    }
}

impl Plain {
    // The same for a call of `put`.
    pub(crate) fn datum(&self) -> Datum<'_>
        ensures { datum_of result ≡ plain_datum self.now }
    {
        match self {
            Plain::Nil => Datum::Nil,
            Plain::Flag(b) => Datum::Boolean(*b),
            Plain::Whole(n) => Datum::Whole(*n),
            Plain::Text(text) => Datum::Text(text.as_slice()),
        }
    }
}
