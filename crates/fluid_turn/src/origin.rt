//! What a turn began with, for the proofs alone.
ghost use Rattle.std.specs.Prelude.{◌≡◌, List};
ghost use base.Fml.{ftrue};
ghost use base.Stored.{coded_list};

use crate::chronicle::Chronicle;
use std::marker::{Model, PhantomData};

// The list with which a turn begins, and what never changes of its value. It has no bytes.
pub struct Origin<E, F> {
    marker: PhantomData<(E, F)>,
    pub ghost began: { List E } by { coded_list E.code },
    pub ghost fixed: { F },
}

impl<E, F> Model for Origin<E, F> {
    ghost also_owns = { λ _. ftrue };
}

impl<E, F> Drop for Origin<E, F> {
    fn drop(self) {
        let Self { marker: _ } = self;
    }
}

// Names a list for which the value stands.
pub(crate) fn origin_of<T: Chronicle>(value: &T) -> Origin<T::Entry, T::Fixed>
    requires { (l : List T.Entry) × T.stands value.now l }
    ensures { T.stands value.now result.began × (result.fixed ≡ T.fixed value.now) }
{
    let _ = value;
    Origin {
        marker: PhantomData,
    }
}
