// What a rendering reads and never changes.
use nodes::book::Book;
use tray::trays::Tray;

/// The tables of a sheet, and the tray.
#[derive(Clone, Copy)]
pub struct Scene<'a> {
    pub book: Book<'a>,
    pub tray: &'a Tray<'a>,
}
