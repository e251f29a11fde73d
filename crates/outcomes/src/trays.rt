//! The trays that cases are rendered with.

use std::alloc::Global;
use std::fs;
use tray::records::OpenError;
use tray::trays::Tray;

// The records of a tray and the text that they cite.
#[derive(Drop)]
pub(crate) struct TrayBytes {
    records: Vec<u8>,
    text: Vec<u8>,
}

// The tray of most renderings, whose texts are the phrases of the bank too; and the other one.
#[derive(Drop)]
pub(crate) struct Trays {
    pub(crate) first: TrayBytes,
    pub(crate) other: TrayBytes,
}

pub(crate) fn read_trays(rt: &HostRuntime) -> anyhow::Result<Trays> {
    Ok(Trays {
        first: read_bytes(rt, "first.rec", "first.txt")?,
        other: read_bytes(rt, "other.rec", "other.txt")?,
    })
}

fn read_bytes(rt: &HostRuntime, records: &str, text: &str) -> anyhow::Result<TrayBytes> {
    Ok(TrayBytes {
        records: fs::read(rt, records)?,
        text: fs::read(rt, text)?,
    })
}

impl TrayBytes {
    pub(crate) fn open(&self, heap: Global) -> Result<Tray<'_>, OpenError> {
        Tray::open(heap, self.records.as_slice(), self.text.as_slice())
    }
}

impl Trays {
    pub(crate) fn of(&self, other: bool) -> &TrayBytes {
        if other { &self.other } else { &self.first }
    }
}
