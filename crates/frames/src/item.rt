// Items of loops, and the rows that loops go over.
ghost use Rattle.std.specs.Prelude.{◌≡◌, length, pos};
ghost use Rattle.std.specs.Option.{unwrap_or};
ghost use Rattle.rows.specs.Windows.{windowed};
ghost use Rattle.frames.specs.Items.{items_in};

use rows::numbers::Numbers;
use rows::row::Row;
use rows::window::Window;
use values::rows_of::{Items, Pairs};

/// An item of a loop: nil, a record of the tray by number, a pair by that of its key's record, or a whole number.
#[derive(Clone, Copy)]
pub enum Item {
    Nil,
    Record(usize),
    Pair(usize),
    Whole(i64),
}

/// What a loop may go over: nothing, the items of an array, the pairs of an object, numbers,
/// or the key and the value of a pair, by the numbers of their records. A block that is no loop goes over nil, once.
#[derive(Clone, Copy)]
pub enum AnyRow {
    Nothing,
    Once,
    Items(Items),
    Pairs(Pairs),
    Numbers(Numbers),
    Pair { key: usize, value: usize },
}

impl Row for AnyRow {
    type Item = Item;

    ghost items = { items_in };

    fn count(&self) -> usize {
        usize::from(self.size())
    }

    fn item(&self, k: usize) -> Option<Item> {
        match self {
            AnyRow::Nothing => None,
            AnyRow::Once => (k == 0).then_some(Item::Nil),
            AnyRow::Items(items) => items.item(k).map(Item::Record),
            AnyRow::Pairs(pairs) => pairs.item(k).map(Item::Pair),
            AnyRow::Numbers(numbers) => numbers.item(k).map(Item::Whole),
            AnyRow::Pair { key, value } => match k {
                0 => Some(Item::Record(*key)),
                1 => Some(Item::Record(*value)),
                _ => None,
            },
        }
    }
}

impl AnyRow {
    // How many items it has: a 16-bit number counts those of any row.
    fn size(self) -> u16
        ensures { result ≡ length (items_in self) }
    {
        match self {
            AnyRow::Nothing => 0,
            AnyRow::Once => 1,
            AnyRow::Items(items) => items.count() as u16,
            AnyRow::Pairs(pairs) => pairs.count() as u16,
            AnyRow::Numbers(numbers) => numbers.count() as u16,
            AnyRow::Pair { .. } => 2,
        }
    }

    /// The window over the row, and how many items it shows. Without an offset it begins at the row's first item.
    pub fn shown(
        self,
        offset: Option<i64>,
        limit: Option<i64>,
        reversed: bool,
    ) -> (Window<AnyRow>, u16)
        ensures made { (result.0.row ≡ self) × (result.0.offset ≡ unwrap_or offset (pos 0)) × (result.0.limit ≡ limit) × (result.0.reversed ≡ reversed) }
        ensures times { result.1 ≡ length (windowed (unwrap_or offset (pos 0)) limit reversed (items_in self)) }
    {
        // For its bound: a window has no more items than its row.
        let _most = self.size();
        let window = Window::new(self, offset, limit, reversed);
        let times = window.count() as u16;
        (window, times)
    }
}
