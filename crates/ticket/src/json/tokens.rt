//! The tokens of a JSON text.

ghost use Rattle.std.specs.Prelude.{◌≡◌, ◌+◌, ◌<◌, ◌≤◌, length, IfOk, vec_len, OnOk};

use crate::cursor::Cursor;
use crate::faults::{Fault, JobError, Place};
use crate::json::document::{Holder, Kind, Part, Token};
use numerals::read_whole;

impl<'a> Cursor<'a> {
    // The token ahead; the bytes of a text go to the end of `texts`.
    pub(crate) fn token(&mut self, texts: &mut Vec<u8>) -> Result<Token, JobError>
        ensures { OnOk result (length self.new.rest.now < length self.old.rest.now) }
    {
        let at = self.at();
        if let Some(b'-' | b'0'..=b'9') = self.peek() {
            return Ok(Token::Leaf(Kind::Whole(self.number()?)));
        }
        match self.take() {
            Some(b'[') => Ok(Token::Open(Holder::Array)),
            Some(b']') => Ok(Token::Close(Holder::Array)),
            Some(b'{') => Ok(Token::Open(Holder::Object)),
            Some(b'}') => Ok(Token::Close(Holder::Object)),
            Some(b',') => Ok(Token::Comma),
            Some(b':') => Ok(Token::Colon),
            Some(b'"') => Ok(Token::Leaf(Kind::Text(self.text(texts)?))),
            Some(b'n') => self.constant(at, b"ull", Kind::Nil),
            Some(b't') => self.constant(at, b"rue", Kind::Flag(true)),
            Some(b'f') => self.constant(at, b"alse", Kind::Flag(false)),
            Some(_) => Err(at.bad(Fault::NotJson)),
            None => Err(at.bad(Fault::Ended)),
        }
    }

    // The rest of a word that begins at `at` and means `kind`.
    fn constant(&mut self, at: Place, rest: &[u8], kind: Kind) -> Result<Token, JobError>
        ensures { length self.new.rest.now ≤ length self.old.rest.now }
    {
        if self.take_all(rest) {
            Ok(Token::Leaf(kind))
        } else {
            Err(at.bad(Fault::NotJson))
        }
    }

    fn number(&mut self) -> Result<i64, JobError>
        ensures { OnOk result (length self.new.rest.now < length self.old.rest.now) }
    {
        let at = self.at();
        let from = self.rest();
        self.take_if(b'-');
        let first = self.peek();
        let count = self.take_while(|b| b.is_ascii_digit()).len();
        if count == 0 {
            return Err(self.at().bad(Fault::NoDigit));
        }
        if count > 1 && first == Some(b'0') {
            return Err(at.bad(Fault::LeadingZero));
        }
        if let Some(b'.' | b'e' | b'E') = self.peek() {
            return Err(self.at().bad(Fault::Fraction));
        }
        let len = from.len() - self.rest().len();
        read_whole(&from[0..len]).ok_or(at.bad(Fault::Large))
    }

    // The text behind an opening quote.
    pub(crate) fn text(&mut self, texts: &mut Vec<u8>) -> Result<Part, JobError>
        ensures { OnOk result (length self.new.rest.now ≤ length self.old.rest.now) }
    {
        let place = texts.len();
        loop {
            let at = self.at();
            match self.take() {
                None => return Err(at.bad(Fault::OpenText)),
                Some(b'"') => break,
                Some(b'\\') => self.escape(at, texts)?,
                Some(0..=31) => return Err(at.bad(Fault::Control)),
                Some(b) => texts.push(b)?,
            }
        }
        Ok(Part {
            place,
            len: texts.len() - place,
        })
    }

    // What stands behind a backslash at the place `at`.
    fn escape(&mut self, at: Place, texts: &mut Vec<u8>) -> Result<(), JobError>
        ensures left { OnOk result (length self.new.rest.now ≤ length self.old.rest.now) }
        ensures grows { OnOk result (vec_len texts.old ≤ vec_len texts.new) }
    {
        let b = match self.take() {
            Some(b'u') => return self.code(at, texts),
            Some(b'b') => 8,
            Some(b'f') => 12,
            Some(b'n') => b'\n',
            Some(b'r') => b'\r',
            Some(b't') => b'\t',
            Some(b @ (b'"' | b'\\' | b'/')) => b,
            Some(_) => return Err(at.bad(Fault::Escape)),
            None => return Err(at.bad(Fault::OpenText)),
        };
        texts.push(b)?;
        Ok(())
    }

    // The character, or pair of surrogates, whose first `\u` stands at the place `at`.
    fn code(&mut self, at: Place, texts: &mut Vec<u8>) -> Result<(), JobError>
        ensures left { OnOk result (length self.new.rest.now ≤ length self.old.rest.now) }
        ensures grows { OnOk result (vec_len texts.old ≤ vec_len texts.new) }
    {
        let first = self.four()? as u32;
        let code = match first {
            0xd800..=0xdbff => 0x10000 + (first - 0xd800) * 0x400 + self.low_surrogate(at)?,
            _ => first,
        };
        let c = char::from_u32(code).ok_or(at.bad(Fault::Surrogate))?;
        // `encode_utf8` asks for a buffer.
        let mut room = [0u8; 4];
        texts.extend_from_slice(c.encode_utf8(&mut room).as_bytes())?;
        Ok(())
    }

    // What the second `\u` of a pair adds, the first of which stands at the place `at`.
    fn low_surrogate(&mut self, at: Place) -> Result<u32, JobError>
        ensures { IfOk result (λ n. (n < 1024) × (length self.new.rest.now ≤ length self.old.rest.now)) }
    {
        if !self.take_if(b'\\') || !self.take_if(b'u') {
            return Err(at.bad(Fault::Surrogate));
        }
        match self.four()? {
            second @ 0xdc00..=0xdfff => Ok((second - 0xdc00) as u32),
            _ => Err(at.bad(Fault::Surrogate)),
        }
    }

    // Four hexadecimal digits.
    fn four(&mut self) -> Result<u16, JobError>
        ensures { OnOk result (length self.new.rest.now ≤ length self.old.rest.now) }
    {
        let a = self.hex()? as u16;
        let b = self.hex()? as u16;
        let c = self.hex()? as u16;
        let d = self.hex()? as u16;
        Ok(a * 4096 + b * 256 + c * 16 + d)
    }

    fn hex(&mut self) -> Result<u8, JobError>
        ensures { IfOk result (λ d. (d < 16) × (length self.new.rest.now ≤ length self.old.rest.now)) }
    {
        let at = self.at();
        // `to_digit` was weighed: it gives a `u32` of a `char`, and both would be cast.
        match self.take() {
            Some(b @ b'0'..=b'9') => Ok(b - b'0'),
            Some(b @ b'a'..=b'f') => Ok(b - b'a' + 10),
            Some(b @ b'A'..=b'F') => Ok(b - b'A' + 10),
            _ => Err(at.bad(Fault::Hex)),
        }
    }
}
