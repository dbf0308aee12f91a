//! Who adds to a history.
ghost use Rattle.std.specs.Prelude.{◌≡◌, ℕ, ◌+◌, List, []};
ghost use mathlib.Core.List.{IsPrefix};
ghost use base.Stored.{coded_list, coded×, coded_ℕ};
ghost use Rattle.deadpool_chronicle.specs.History.{Adds, Calls, calls_by};
ghost use Rattle.deadpool_chronicle.specs.Owned.{author_owns};

use crate::beginning::Beginning;
use crate::blank::Chronicle;
use crate::caller::Caller;
use crate::page::Page;
use std::marker::{Model, PhantomData};

/// Which entries say what was asked and what the reply was, at the end of the history so far.
pub trait Says<X, R, E> {
    ghost use Rattle.std.specs.Prelude.{ℕ, List};

    ghost entry: { X → R → List (ℕ × E) → E → Type 0 };
}

/// The whole history, in which each entry stands beside the number of its caller, and the right to add to it. There is
/// one for each history.
pub struct Author<E, H: Chronicle> {
    pub(crate) marker: PhantomData<(E, H)>,
    pub ghost log: { List (ℕ × E) } by { coded_list (coded× coded_ℕ E.code) },
}

impl<E, H: Chronicle> Model for Author<E, H> {
    ghost also_owns = { λ a. author_owns E.row.coded H.names a.log };
}

impl<E, H: Chronicle> Author<E, H> {
    /// Adds one entry of a caller's, which says what it asked and what the reply was. Nobody has to have its value:
    /// that there is one is enough. The history had of the caller what the caller has; it has then seen all of it.
    pub fn note<X, R, M: Says<X, R, E>>(&mut self, caller: &mut Caller<E, H>, asked: &X, reply: &R)
        requires says { (e : E) × M.entry asked.now reply.now self.old.log e }
        ensures call { Calls (M.entry asked.now reply.now self.old.log)
            self.old.log caller.old self.new.log caller.new }
        ensures seen { IsPrefix caller.old.seen self.old.log }
        ensures mine { calls_by caller.old.number self.old.log ≡ caller.old.mine }
    {
        self.above(&caller.seen);
        self.add::<X, R, M>(&mut caller.page, asked, reply);
        caller.seen = self.seen();
    }

    /// A caller lets a new one in, of which the history has nothing. The new one has seen all of the history.
    pub fn admit(&mut self, caller: &mut Caller<E, H>) -> Caller<E, H>
        ensures log { self.new.log ≡ self.old.log }
        ensures caller { caller.new
            ≡ record caller.old { admitted = caller.old.admitted + 1 } }
        ensures mine { result.mine ≡ [] }
        ensures admitted { result.admitted ≡ 0 }
        ensures seen { result.seen ≡ self.old.log }
        ensures fresh { calls_by result.number self.old.log ≡ [] }
    {
        let page = self.admit_page(&mut caller.page);
        let seen = self.seen();
        Caller { page, seen }
    }

    /// The history has of a caller what the caller has. The caller has then seen all of it.
    pub fn audit(&mut self, caller: &mut Caller<E, H>)
        ensures log { self.new.log ≡ self.old.log }
        ensures caller { caller.new ≡ record caller.old { seen = self.old.log } }
        ensures seen { IsPrefix caller.old.seen self.old.log }
        ensures mine { calls_by caller.old.number self.old.log ≡ caller.old.mine }
    {
        self.above(&caller.seen);
        self.audit_page(&mut caller.page);
        caller.seen = self.seen();
    }

    /// The history so far, as a beginning of what it becomes.
    pub fn seen(&mut self) -> Beginning<E, H>
        ensures log { self.new.log ≡ self.old.log }
        ensures seen { result.log ≡ self.old.log }
    {
        Beginning {
            marker: PhantomData,
        }
    }

    /// What was seen is a beginning of the history.
    pub fn above(&mut self, seen: &Beginning<E, H>)
        ensures log { self.new.log ≡ self.old.log }
        ensures seen { IsPrefix seen.now.log self.old.log }
    {}

    // One entry more at the end, on its caller's page too.
    pub(crate) fn add<X, R, M: Says<X, R, E>>(
        &mut self,
        page: &mut Page<E, H>,
        asked: &X,
        reply: &R,
    )
        requires says { (e : E) × M.entry asked.now reply.now self.old.log e }
        ensures added { Adds (M.entry asked.now reply.now self.old.log)
            self.old.log page.old.number page.old.mine self.new.log page.new.mine }
        ensures number { page.new.number ≡ page.old.number }
        ensures admitted { page.new.admitted ≡ page.old.admitted }
        ensures before { calls_by page.old.number self.old.log ≡ page.old.mine }
        ensures after { calls_by page.old.number self.new.log ≡ page.new.mine }
    {}

    // A new page, which is counted on that of the caller that asked for it.
    pub(crate) fn admit_page(&mut self, page: &mut Page<E, H>) -> Page<E, H>
        ensures log { self.new.log ≡ self.old.log }
        ensures number { page.new.number ≡ page.old.number }
        ensures mine { page.new.mine ≡ page.old.mine }
        ensures counted { page.new.admitted ≡ page.old.admitted + 1 }
        ensures empty { result.mine ≡ [] }
        ensures admitted { result.admitted ≡ 0 }
        ensures fresh { calls_by result.number self.old.log ≡ [] }
    {
        Page {
            marker: PhantomData,
        }
    }

    // The history has of a caller what is on its page.
    pub(crate) fn audit_page(&mut self, page: &mut Page<E, H>)
        ensures log { self.new.log ≡ self.old.log }
        ensures number { page.new.number ≡ page.old.number }
        ensures mine { page.new.mine ≡ page.old.mine }
        ensures admitted { page.new.admitted ≡ page.old.admitted }
        ensures has { calls_by page.old.number self.old.log ≡ page.old.mine }
    {}
}

impl<E, H: Chronicle> Drop for Author<E, H> {
    fn drop(self) {
        let Self { marker: _ } = self;
    }
}

unsafe impl<E, H: Chronicle> Send for Author<E, H> {}
