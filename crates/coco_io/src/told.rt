//! A list that contracts alone see.
ghost use Rattle.std.specs.Prelude.{◌≡◌, List, [], ◌++◌};
ghost use Rattle.std.specs.Borrow.{ftrue};

use std::marker::{Model, PhantomData};

/// A list that contracts see as `items`. It takes no memory, and its methods do nothing when they run.
#[derive(Drop)]
pub struct Told<T> {
    marker: PhantomData<T>,
    pub ghost items: { List T },
}

impl<T> Model for Told<T> {
    ghost also_owns = { λ _. ftrue };
}

impl<T> Told<T> {
    /// The empty list.
    pub fn new() -> Told<T>
        ensures { result.items ≡ [] }
    {
        Told {
            marker: PhantomData,
        }
    }

    /// Adds items at the end.
    pub fn add(&mut self, _items: &[T])
        ensures { self.new.items ≡ self.old.items ++ _items.now }
    {}
}

// It has no bytes.
unsafe impl<T> Send for Told<T> {}

unsafe impl<T> Sync for Told<T> {}
