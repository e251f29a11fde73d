ghost use Rattle.std.specs.Prelude.{◌≡◌, Bool, MatchOption};
ghost use Rattle.rows.specs.First.{first_from, FirstAt, NoneAt};

use crate::row::Row;

/// An equality on items, with all that it must know of the world, such as the tray that holds them.
// A trait and no closure: a closure's contract would be asked of whoever calls `first_match`.
pub trait Equality<T> {
    ghost equals: { Self → T → T → Bool };

    fn same(&self, a: &T, b: &T) -> bool
        ensures { result ≡ equals self.now a.now b.now };
}

/// The place of the first item of a row that equals the target.
pub fn first_match<T: Drop, R: Row<Item = T>, E: Equality<T>>(
    row: &R,
    equality: &E,
    target: &T,
) -> Option<usize>
    ensures place { result ≡ first_from (λ x. E.Equality.equals equality.now x target.now) 0 (R.Row.items row.now) }
    ensures first { MatchOption result (NoneAt (λ x. E.Equality.equals equality.now x target.now) (R.Row.items row.now)) (FirstAt (λ x. E.Equality.equals equality.now x target.now) (R.Row.items row.now)) }
{
    (0..row.count()).find(|&k| row.item(k).is_some_and(|x| equality.same(&x, target)))
}
