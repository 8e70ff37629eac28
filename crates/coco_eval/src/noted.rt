//! Values that only contracts see.
ghost use Rattle.std.specs.Prelude.{◌≡◌};
ghost use base.Fml.{ftrue};

use std::marker::{Model, PhantomData};

/// It has no bytes. Contracts see the value that it was made of, in `value`.
pub struct Noted<V> {
    marker: PhantomData<V>,
    pub ghost value: { V } by { V.code },
}

impl<V> Model for Noted<V> {
    ghost also_owns = { λ _. ftrue };
}

impl<V> Noted<V> {
    pub fn of(value: &V) -> Noted<V>
        ensures { result.value ≡ value.now }
    {
        let _ = value;
        Noted {
            marker: PhantomData,
        }
    }
}

impl<V> Drop for Noted<V> {
    fn drop(self) {
        let Self { marker: _ } = self;
    }
}

// It has no bytes.
unsafe impl<V> Send for Noted<V> {}

unsafe impl<V> Sync for Noted<V> {}
