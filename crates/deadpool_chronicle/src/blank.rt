//! A new history.
ghost use Rattle.std.specs.Prelude.{◌≡◌, []};
ghost use Rattle.deadpool_chronicle.specs.Names.{Names, names_coded};
ghost use Rattle.deadpool_chronicle.specs.Owned.{blank_owns};

use crate::author::Author;
use crate::caller::Caller;
use crate::page::Page;
use std::marker::{Brand, Model, PhantomData};

/// Which history a token is of.
pub trait Chronicle {
    ghost use Rattle.deadpool_chronicle.specs.Names.{Names};

    ghost names: { Names };
}

impl Chronicle for Brand {
    ghost names = { record { entries = 0; pages = 0 } };
}

/// A new history, which no type stands for yet. Contracts see its names.
pub struct Blank {
    marker: PhantomData<()>,
    pub ghost names: { Names } by { names_coded },
}

impl Model for Blank {
    ghost also_owns = { λ b. blank_owns b.names };
}

impl Blank {
    /// A history under names of its own.
    pub fn new() -> Blank {
        Blank {
            marker: PhantomData,
        }
    }

    /// Opens the history, which is empty, under the names of a type, and lets its first caller in.
    pub fn open<E, H: Chronicle>(self) -> (Author<E, H>, Caller<E, H>)
        requires names { self.names ≡ H.names }
        ensures log { result.0.log ≡ [] }
        ensures caller { result.1 ≡ record { number = 0; mine = []; admitted = 0; seen = [] } }
    {
        let (mut author, page) = self.begin::<E, H>();
        let seen = author.seen();
        (author, Caller { page, seen })
    }

    // Who may add to it, and its first page.
    pub(crate) fn begin<E, H: Chronicle>(self) -> (Author<E, H>, Page<E, H>)
        requires names { self.names ≡ H.names }
        ensures log { result.0.log ≡ [] }
        ensures number { result.1.number ≡ 0 }
        ensures mine { result.1.mine ≡ [] }
        ensures admitted { result.1.admitted ≡ 0 }
    {
        let Self { marker: _ } = self;
        (
            Author {
                marker: PhantomData,
            },
            Page {
                marker: PhantomData,
            },
        )
    }
}

impl Drop for Blank {
    fn drop(self) {
        let Self { marker: _ } = self;
    }
}

unsafe impl Send for Blank {}
