//! The steps of a core that the pool's owner makes.
ghost use Rattle.std.specs.Prelude.{◌≡◌};
ghost use Rattle.deadpool_unmanaged.specs.Room.{SameRoom};
ghost use Rattle.deadpool_unmanaged.specs.State.{status_of};
ghost use Rattle.deadpool_unmanaged.specs.StateSteps.{Clones, DropsHandle, Upgrades, closed_pool};

use super::Core;
use crate::{HandleReply, Status};

impl<T: Drop> Core<T> {
    /// How the pool stands. All idle objects are available, also those that a get was granted, and all gets in the
    /// queue wait.
    pub fn status(&self) -> Status
        ensures { result ≡ status_of self.now.pool }
    {
        let available = self.idle.len();
        Status {
            max_size: self.limit,
            size: available + self.outside,
            available,
            waiting: self.gets.waiting() + self.gets.granted(),
        }
    }

    /// The pool closes for good. The idle objects are dropped, and the limit stays.
    pub fn close(&mut self)
        ensures closed { self.new.pool ≡ closed_pool self.old.pool }
        ensures room { SameRoom self.old self.new }
    {
        self.gets.close();
        self.adds.close();
        self.idle.clear();
    }

    /// There is one more handle. A count that has reached the greatest `u64` stays there.
    pub fn clone_handle(&mut self) -> HandleReply
        ensures clones { Clones self.old.pool result self.new.pool }
        ensures room { SameRoom self.old self.new }
    {
        if self.handles == 0 {
            return HandleReply::NoHandle;
        }
        self.handles = self.handles.saturating_add(1);
        HandleReply::Done
    }

    /// There is one handle less. The last one takes the idle objects with it, which are dropped. A count that has
    /// reached the greatest `u64` stays there.
    pub fn drop_handle(&mut self) -> HandleReply
        ensures drops { DropsHandle self.old.pool result self.new.pool }
        ensures room { SameRoom self.old self.new }
    {
        if self.handles == 0 {
            return HandleReply::NoHandle;
        }
        if self.handles < u64::MAX {
            self.handles -= 1;
        }
        if self.handles == 0 {
            self.idle.clear();
            self.adds.settle_within(self.limit - self.outside, 0);
        }
        HandleReply::Done
    }

    /// There is one more handle, for an owner that has none: true exactly if one is left. Otherwise nothing changes.
    pub fn upgrade(&mut self) -> bool
        ensures upgrades { Upgrades self.old.pool result self.new.pool }
        ensures room { SameRoom self.old self.new }
    {
        match self.clone_handle() {
            HandleReply::Done => true,
            HandleReply::NoHandle => false,
        }
    }
}
