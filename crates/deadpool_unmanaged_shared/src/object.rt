//! An object that is out.
ghost use Rattle.std.specs.Prelude.{◌≡◌};
ghost use Rattle.deadpool_unmanaged_history.specs.Telling.{ThenTells};
ghost use Rattle.deadpool_unmanaged_shared.specs.Calling.{CallsBack, CallsTake};

use crate::shared::Shared;
use deadpool_lock::Home;
use deadpool_unmanaged::{Clock, Core};
use deadpool_unmanaged_history::KeepsState;
use std::ops::{Deref, DerefMut};
use std::sync::Wait;

/// An object of a pool, lent to whoever has it. Dropping it gives it back: the pool keeps it, unless the pool is closed
/// or its last handle was dropped.
pub struct Object<T: Drop, C: Clock, R: Wait + Drop, S: KeepsState<T> = Core<T>> {
    pub(crate) home: Home<Shared<T, C, R, S>>,
    pub(crate) value: T,
    // By whom it goes back.
    pub(crate) caller: S::Caller,
}

impl<T: Drop, C: Clock, R: Wait + Drop, S: KeepsState<T>> Object<T, C, R, S> {
    /// Takes the value out of the pool for good. Its room is free.
    pub fn take(this: Self) -> T
        ensures value { result ≡ this.value }
        ensures call { (c : S.Caller) × ThenTells S.keeps S.is_quiet (CallsTake S.calls) this.caller c }
    {
        let (value, _) = Object::take_by(this);
        value
    }

    /// `take`, and the caller that the history has it of.
    pub fn take_by(this: Self) -> (T, S::Caller)
        ensures value { result.0 ≡ this.value }
        ensures call { ThenTells S.keeps S.is_quiet (CallsTake S.calls) this.caller result.1 }
    {
        let Self {
            home,
            value,
            mut caller,
        } = this;
        home.shared().leave(&mut caller);
        (value, caller)
    }

    /// Gives the object back, as its drop does, and the caller that the history has it of.
    pub fn give_back(this: Self) -> S::Caller
        ensures { ThenTells S.keeps S.is_quiet (CallsBack S.calls this.value) this.caller result }
    {
        let Self {
            home,
            value,
            mut caller,
        } = this;
        home.shared().back(&mut caller, value);
        caller
    }
}

impl<T: Drop, C: Clock, R: Wait + Drop, S: KeepsState<T>> Drop for Object<T, C, R, S> {
    fn drop(self)
        ensures { (c : S.Caller) × ThenTells S.keeps S.is_quiet (CallsBack S.calls self.value) self.caller c }
    {
        Object::give_back(self);
    }
}

impl<T: Drop, C: Clock, R: Wait + Drop, S: KeepsState<T>> Deref for Object<T, C, R, S> {
    type Target = T;

    ghost deref_gives = { λ o x. x ≡ o.value };

    fn deref(&self) -> &T {
        &self.value
    }
}

impl<T: Drop, C: Clock, R: Wait + Drop, S: KeepsState<T>> DerefMut for Object<T, C, R, S> {
    ghost use Rattle.std.specs.Borrow.{Lends, sem};
    ghost use Rattle.deadpool_unmanaged_shared.specs.contracts.object.Object.{the_row};

    ghost deref_mut_gives = { λ o x. x ≡ o.value };

    fn deref_mut(&mut self) -> &mut T
        ensures* writes_back { sem 𝓛 (Lends (the_row T.row C.row R.row S.row C.Alarm.row S.Caller.row)
            T.row self.entry result (λ w. record self.old { value = w })) }
        ensures shows { result.now ≡ self.old.value }
    {
        &mut self.value
    }
}
