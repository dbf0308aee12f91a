//! What a history has of one caller.
ghost use Rattle.std.specs.Prelude.{ℕ, List};
ghost use base.Stored.{coded_list};
ghost use Rattle.deadpool_chronicle.specs.Owned.{page_owns};

use crate::blank::Chronicle;
use std::marker::{Model, PhantomData};

/// All entries of one caller, and how many callers it has let in. There is one for each caller.
pub struct Page<E, H: Chronicle> {
    pub(crate) marker: PhantomData<(E, H)>,
    pub ghost number: { ℕ },
    pub ghost mine: { List E } by { coded_list E.code },
    pub ghost admitted: { ℕ },
}

impl<E, H: Chronicle> Model for Page<E, H> {
    ghost also_owns = { λ p. page_owns E.row.coded H.names p.number p.mine p.admitted };
}

impl<E, H: Chronicle> Drop for Page<E, H> {
    fn drop(self) {
        let Self { marker: _ } = self;
    }
}

unsafe impl<E, H: Chronicle> Send for Page<E, H> {}
