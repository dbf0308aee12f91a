//! A caller.
ghost use Rattle.std.specs.Prelude.{◌≡◌};
ghost use Rattle.deadpool_chronicle.specs.History.{calls_by};

use crate::beginning::Beginning;
use crate::blank::Chronicle;
use crate::page::Page;
use std::marker::Model;

/// A caller: its number, all its entries in the history, how many callers it has let in, and what it has seen of the
/// history, which has of it just these entries. There is one with its number.
#[derive(Drop)]
pub struct Caller<E, H: Chronicle> {
    pub(crate) page: Page<E, H>,
    pub(crate) seen: Beginning<E, H>,
}

impl<E, H: Chronicle> Model for Caller<E, H> {
    ghost use Rattle.std.specs.Prelude.{◌≡◌};
    ghost use Rattle.deadpool_chronicle.specs.History.{Knowing, calls_by};

    ghost Value = { Knowing E };

    ghost view = { λ c. record {
      number = c.page.number;
      mine = c.page.mine;
      admitted = c.page.admitted;
      seen = c.seen.log;
    } };

    ghost invariant = { λ c. calls_by c.page.number c.seen.log ≡ c.page.mine };
}

impl<E, H: Chronicle> Caller<E, H> {
    /// What it has seen.
    pub fn seen(&self) -> Beginning<E, H>
        ensures seen { result.log ≡ self.now.seen }
        ensures mine { calls_by self.now.number self.now.seen ≡ self.now.mine }
    {
        self.seen.again()
    }
}
