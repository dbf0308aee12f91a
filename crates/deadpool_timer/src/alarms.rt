//! Who is to be woken when.
ghost use Rattle.std.specs.Prelude.{◌≡◌, ◌%◌, ◌^◌, suc, true, false, [], Some, None, IfOk, IfErr, OnErr};
ghost use Rattle.std.specs.Option.{option_map};
ghost use Rattle.std.specs.BTreeMap.{btree_map_len, get, IsUnchanged, Updates};
ghost use Rattle.deadpool_timer.specs.Ringing.{Tells, first_moment, place_cmp};

use deadpool_parts::Moment;
use futures::task::Waker;
use std::alloc::Global;
use std::collections::BTreeMap;

/// Where an alarm stands: its moment in nanoseconds, and which of the alarms of that moment it is.
pub type Place = (u128, u64);

/// What a timer's thread does next.
pub enum Next {
    /// It wakes this one.
    Wake(Waker),
    /// It waits until this moment, or until the alarms change.
    Until(Moment),
    /// It waits until the alarms change.
    Wait,
    /// It ends.
    End,
}

/// The alarms of a timer, the earliest first. Those of one moment ring in the order in which they were set.
#[derive(Drop)]
pub struct Alarms {
    wakers: BTreeMap<Place, Waker, Global>,
    // How many were set so far, which tells those of one moment apart.
    set: u64,
    is_stopped: bool,
}

impl Alarms {
    /// None so far.
    pub fn new(alloc: Global) -> Self
        ensures none { result.wakers.entries ≡ [] }
        ensures runs { result.is_stopped ≡ false }
    {
        Alarms {
            wakers: BTreeMap::new(alloc),
            set: 0,
            is_stopped: false,
        }
    }

    /// Sets one alarm more, and gives its place. If there is no memory for it, or the timer was stopped, nothing
    /// changes and the waker comes back.
    pub fn set(&mut self, at: Moment, waker: Waker) -> Result<Place, Waker>
        ensures moment { IfOk result (λ place. place.0 ≡ at.0) }
        ensures runs { IfOk result (λ _. self.old.is_stopped ≡ false) }
        ensures number { IfOk result (λ place. place.1 ≡ self.old.set) }
        ensures was_free { IfOk result (λ place. get place_cmp self.old.wakers place ≡ None) }
        ensures put { IfOk result
            (λ place. Updates place_cmp self.old.wakers self.new.wakers place (Some waker)) }
        ensures counted { IfOk result (λ _. self.new.set ≡ suc self.old.set % 2 ^ 64) }
        ensures refused { IfErr result (λ back. back ≡ waker) }
        ensures unchanged { OnErr result (IsUnchanged self.old.wakers self.new.wakers) }
        ensures stopped { self.new.is_stopped ≡ self.old.is_stopped }
    {
        let place = (at.0, self.set);
        if self.is_stopped || self.wakers.contains_key(&place) {
            return Err(waker);
        }
        match self.wakers.insert(place, waker) {
            Ok(_none) => {
                self.set = self.set.wrapping_add(1);
                Ok(place)
            }
            Err(refused) => Err(refused.value.1),
        }
    }

    /// Takes an alarm back. There is none if it rang.
    pub fn take_back(&mut self, place: Place) -> Option<Waker>
        ensures waker { result ≡ get place_cmp self.old.wakers place }
        ensures taken { Updates place_cmp self.old.wakers self.new.wakers place None }
        ensures counted { self.new.set ≡ self.old.set }
        ensures stopped { self.new.is_stopped ≡ self.old.is_stopped }
    {
        self.wakers.remove(&place)
    }

    /// When the first alarm rings.
    pub fn first(&self) -> Option<Moment>
        ensures { option_map (λ at. at.0) result ≡ first_moment self.now.wakers.entries }
    {
        match self.wakers.first_key_value() {
            Some(((at, _), _)) => Some(Moment(*at)),
            None => None,
        }
    }

    /// What the thread does next at this moment. Once the timer was stopped, all that are set ring, one after the
    /// other.
    pub fn next(&mut self, now: Moment) -> Next
        ensures tells { Tells self.old.is_stopped
            self.old.wakers.entries self.new.wakers.entries now.0 result }
        ensures counted { self.new.set ≡ self.old.set }
        ensures stopped { self.new.is_stopped ≡ self.old.is_stopped }
    {
        if !self.is_stopped {
            let Some(at) = self.first() else {
                return Next::Wait;
            };
            if at > now {
                return Next::Until(at);
            }
        }
        match self.wakers.pop_first() {
            Some((_, waker)) => Next::Wake(waker),
            None => Next::End,
        }
    }

    /// No alarm is set from now on.
    pub fn stop(&mut self)
        ensures stopped { self.new.is_stopped ≡ true }
        ensures alarms { IsUnchanged self.old.wakers self.new.wakers }
        ensures counted { self.new.set ≡ self.old.set }
    {
        self.is_stopped = true;
    }

    /// Whether the timer was stopped.
    pub fn is_stopped(&self) -> bool
        ensures { result ≡ self.now.is_stopped }
    {
        self.is_stopped
    }

    /// How many are set.
    pub fn count(&self) -> usize
        ensures { result ≡ btree_map_len self.now.wakers }
    {
        self.wakers.len()
    }
}
