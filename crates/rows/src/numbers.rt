ghost use Rattle.std.specs.Prelude.{◌≡◌, ◌<◌, pos, ◌+ℤ◌, ◌-ℤ◌, MatchOption};
ghost use Rattle.rows.specs.Counted.{how_many, between, held, Counts};

use crate::place::within;
use crate::row::Row;

const MOST: usize = 4096;

/// The row of the whole numbers from `from` to `to`, both counted, in rising order; it holds no more than the first 4,096.
#[derive(Clone, Copy, Debug, PartialEq, Eq)]
pub struct Numbers {
    from: i64,
    to: i64,
}

impl Numbers {
    /// The whole numbers from `from` to `to`, none where `to` is below `from`; nothing where there are more than 4,096.
    pub fn new(from: i64, to: i64) -> Option<Numbers>
        ensures made { MatchOption result (4096 < how_many from to) (λ s. (s.from ≡ from) × (s.to ≡ to) × (held s.from s.to ≡ between from to)) }
        ensures exact { Counts from to (between from to) }
    {
        let numbers = Numbers { from, to };
        (numbers.distance() <= MOST as i128).then_some(numbers)
    }

    // One more than the difference: how many whole numbers there are from `from` to `to`, where it is above 0.
    fn distance(&self) -> i128
        ensures { result ≡ (self.now.to -ℤ self.now.from) +ℤ pos 1 }
    {
        self.to as i128 - self.from as i128 + 1
    }
}

impl Row for Numbers {
    type Item = i64;

    ghost items = { λ s. held s.from s.to };

    fn count(&self) -> usize {
        within(self.distance(), MOST)
    }

    fn item(&self, k: usize) -> Option<i64> {
        // Read whole, so that both ends are known to be 64-bit numbers.
        let numbers = *self;
        // `then` was tried: what it asks of its closure did not close.
        if k < self.count() {
            Some(numbers.from + k as i64)
        } else {
            None
        }
    }
}
