ghost use Rattle.tray.specs.Sound.{Rooted, Behind, Inside, Once, KeysText};

use crate::records::Record;

/// Host data: records that make a tray, with the text that they cite.
// Calls take a tray and a record's number, and no struct of both: a number is kept where there is no tray, in records,
// rows and variables, two numbers of one tray are compared, and methods on one type could not be in several crates.
#[derive(Drop)]
pub struct Tray<'a> {
    pub(crate) records: Vec<Record>,
    pub(crate) text: &'a [u8],
    ghost root: { Rooted records.items },
    ghost behind: { Behind records.items },
    ghost inside: { Inside records.items },
    ghost once: { Once records.items },
    ghost keys: { KeysText records.items },
}
