//! A value that only clauses read.
ghost use Rattle.std.specs.Prelude.{◌≡◌};
ghost use base.Fml.{ftrue};

use std::marker::{Model, PhantomData};

/// A value that only clauses read. It has no bytes.
pub struct Tale<T> {
    marker: PhantomData<T>,
    pub ghost value: { T },
}

impl<T> Model for Tale<T> {
    ghost also_owns = { λ _. ftrue };
}

impl<T> Drop for Tale<T> {
    fn drop(self) {
        let Self { marker: _ } = self;
    }
}

/// Tells any value.
pub fn tell<T>() -> Tale<T>
    ghost value: { T }
    ensures { result.value ≡ value }
{
    Tale {
        marker: PhantomData,
    }
}
