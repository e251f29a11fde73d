ghost use Rattle.std.specs.Prelude.{◌≡◌, Some, None, MatchResult};
ghost use Rattle.tray.specs.Decode.{decoded, Why};

use crate::decode::read_one;
use crate::records::{OpenError, Record};
use std::alloc::Global;

pub(crate) fn load(
    heap: Global,
    bytes: &[u8],
    room: usize,
    most: usize,
) -> Result<Vec<Record>, OpenError>
    ensures { MatchResult result (λ v. decoded most room bytes.now ≡ Some v.items) (λ e. Why e (decoded most room bytes.now ≡ None)) }
{
    let mut records = Vec::new(heap);
    let mut left = bytes;
    while !left.is_empty() {
        if records.len() >= most {
            return Err(OpenError::Refused);
        }
        let (record, rest) = read_one(left, room).ok_or(OpenError::Refused)?;
        records.push(record)?;
        left = rest;
    }
    Ok(records)
}
