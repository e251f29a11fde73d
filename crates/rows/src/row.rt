ghost use Rattle.std.specs.Prelude.{◌≡◌, List, length};
ghost use Rattle.std.specs.List.{slice_get};

/// A row means a list, `items`: it tells how many items there are, and the item at a place below that count, else nothing.
// No iterator: a loop of a template asks for its row's items one by one, by their places, between other calls.
pub trait Row {
    type Item;

    ghost items: { Self → List Self.Item };

    fn count(&self) -> usize
        ensures { result ≡ length (items self.now) };

    fn item(&self, k: usize) -> Option<Self::Item>
        ensures { result ≡ slice_get (items self.now) k };
}
