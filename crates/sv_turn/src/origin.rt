//! The view that a turn began with, kept with its table. It has no bytes.
ghost use Rattle.std.specs.Prelude.{◌≡◌};
ghost use base.Fml.{ftrue};

use crate::rule::FirstView;
use std::marker::{Model, PhantomData};

pub struct Origin<V> {
    marker: PhantomData<V>,
    pub ghost first: { V },
}

impl<V> Model for Origin<V> {
    ghost also_owns = { λ o. ftrue };
}

impl<V> Origin<V> {
    pub fn of<F: FirstView<V>>() -> Origin<V>
        ensures { result.first ≡ F.first }
    {
        Origin {
            marker: PhantomData,
        }
    }
}

impl<V> Drop for Origin<V> {
    fn drop(self) {
        let Self { marker: _ } = self;
    }
}
