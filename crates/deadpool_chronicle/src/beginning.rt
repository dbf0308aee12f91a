//! A beginning of a history.
ghost use Rattle.std.specs.Prelude.{◌≡◌, ℕ, List};
ghost use base.Stored.{coded_list, coded×, coded_ℕ};
ghost use denote.Sharing.{said};
ghost use Rattle.deadpool_chronicle.specs.Owned.{beginning_owns};

use crate::blank::Chronicle;
use std::marker::{Model, PhantomData};

/// A beginning of the history, which stays one as the history grows. It may be had any number of times.
pub struct Beginning<E, H: Chronicle> {
    pub(crate) marker: PhantomData<(E, H)>,
    pub ghost log: { List (ℕ × E) } by { coded_list (coded× coded_ℕ E.code) },
}

impl<E, H: Chronicle> Model for Beginning<E, H> {
    ghost also_owns = { λ b. beginning_owns E.row.coded H.names b.log };

    ghost also_shares = { λ b _ κ. said (beginning_owns E.row.coded H.names b.log) κ };
}

impl<E, H: Chronicle> Beginning<E, H> {
    /// The same once more.
    pub fn again(&self) -> Beginning<E, H>
        ensures { result.log ≡ self.now.log }
    {
        Beginning {
            marker: PhantomData,
        }
    }
}

impl<E, H: Chronicle> Drop for Beginning<E, H> {
    fn drop(self) {
        let Self { marker: _ } = self;
    }
}

unsafe impl<E, H: Chronicle> Send for Beginning<E, H> {}

unsafe impl<E, H: Chronicle> Sync for Beginning<E, H> {}
