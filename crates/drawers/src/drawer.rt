// One drawer for every kind of content.
ghost use Rattle.std.specs.Prelude.{◌≡◌, None, Some, IfOk, replicate, slice_index_or, slice_set, vec_len};
ghost use Rattle.std.specs.Option.{option_map};

use std::alloc::{AllocError, Global};

/// What names, or cycle names, have by their numbers; at first none has anything.
#[derive(Drop)]
pub struct Drawer<T> {
    slots: Vec<Option<T>>,
}

impl<T: Drop> Drawer<T> {
    /// A drawer of `count` places, with nothing in them.
    pub(crate) fn new(heap: Global, count: usize) -> Result<Drawer<T>, AllocError>
        ensures items { IfOk result (λ d. d.slots.items ≡ replicate count None) }
        ensures places { IfOk result (λ d. vec_len d.slots ≡ count) }
    {
        let mut slots = Vec::with_capacity(heap, count)?;
        for _ in 0..count {
            slots.push(None)?;
        }
        Ok(Drawer { slots })
    }

    /// What is there; nothing past the last place.
    pub(crate) fn get(&self, n: usize) -> Option<&T>
        ensures { option_map (λ x. x.now) result ≡ slice_index_or self.now.slots.items n None }
    {
        self.slots.get(n)?.as_ref()
    }

    /// Puts something there in place of what was there; past the last place nothing changes.
    pub(crate) fn set(&mut self, n: usize, content: T)
        ensures items { self.new.slots.items ≡ slice_set self.old.slots.items n (Some content) }
        ensures places { vec_len self.new.slots ≡ vec_len self.old.slots }
    {
        if n < self.slots.len() {
            self.slots[n] = Some(content);
        }
    }
}
