//! The events of an order, but for the reply to a step. Each says what is next.
ghost use Rattle.std.specs.Prelude.{◌≡◌, ◌≤◌, Some, None};
ghost use Rattle.deadpool_desk.specs.declared.step.Held.{Held};
ghost use Rattle.deadpool_order.specs.Commands.{Fits};
ghost use Rattle.deadpool_order.specs.Ends.{Ends, Nears, rank};
ghost use Rattle.deadpool_order.specs.Follows.{FollowsBegun, FollowsFailed, FollowsPaused};
ghost use Rattle.deadpool_order.specs.Follows.{FollowsReady, FollowsUnheard, after_drop, then_dropped};
ghost use Rattle.deadpool_order.specs.Has.{held_in, waits_in, whole_in};
ghost use Rattle.deadpool_order.specs.States.{IsCalling, IsGiving, IsLeaving, IsPaused};
ghost use Rattle.deadpool_order.specs.States.{IsQueued, IsWithin};
ghost use Rattle.deadpool_order.specs.declared.command.Cause.{Cause};
ghost use Rattle.deadpool_order.specs.declared.state.State.{State};

use crate::{Cause, Command, HookCounts, Order, State, Then};
use deadpool_desk::Held;

impl Order {
    /// The get is polled for the first time.
    #[inline(always)]
    pub fn started(&mut self, wait: bool) -> Command
        requires new { self.old.state ≡ State.New }
        ensures state { self.new.state ≡ State.Entering wait }
        ensures fits { Fits self.new.state result }
        ensures left { self.new.left ≡ self.old.left }
    {
        self.to(State::Entering { wait }, Command::Enter { wait })
    }

    /// The same of a get that may wait so long, without a runtime to tell the time. It has made no step.
    pub fn lacking(&mut self) -> Command
        requires new { self.old.state ≡ State.New }
        ensures state { self.new.state ≡ State.Over Cause.NoRuntime }
        ensures fits { Fits self.new.state result }
    {
        let cause = Cause::NoRuntime;
        self.to(State::Over(cause), Command::End(cause))
    }

    /// It is in the queue, and no memory was found for what is to wake it.
    pub fn unheard(&mut self) -> Command
        requires queued { IsQueued self.old.state }
        ensures held { held_in self.new.state ≡ held_in self.old.state }
        ensures waits { waits_in self.new.state ≡ waits_in self.old.state }
        ensures fits { Fits self.new.state result }
        ensures follows { FollowsUnheard self.old.state self.new.state }
        ensures ends { Ends self.new.state }
    {
        match &self.state {
            State::Queued(ticket) => {
                let (ticket, cause) = (*ticket, Cause::OutOfMemory);
                self.to(State::Withdrawing(ticket, cause), Command::Make)
            }
            _ => unreachable!(),
        }
    }

    /// It is polled again. In the queue it may have waited for too long.
    pub fn polled(&mut self, expired: bool) -> Command
        requires paused { IsPaused self.old.state }
        ensures held { held_in self.new.state ≡ held_in self.old.state }
        ensures waits { waits_in self.new.state ≡ waits_in self.old.state }
        ensures fits { Fits self.new.state result }
        ensures follows { FollowsPaused expired self.old.state self.new.state }
        ensures left { self.new.left ≡ self.old.left }
    {
        match &self.state {
            State::Queued(ticket) => {
                let ticket = *ticket;
                self.to(State::Asking { ticket, expired }, Command::Ask)
            }
            _ => self.to(State::GoingOn, Command::Make),
        }
    }

    /// The poll ends within a call. The next one has an allowance of its own.
    pub fn pauses(&mut self)
        ensures left { self.new.left ≡ None }
        ensures state { self.new.state ≡ self.old.state }
    {
        self.left = None;
    }

    /// A call ended well.
    #[inline(always)]
    pub fn ready(&mut self, counts: &HookCounts) -> Command
        requires calling { IsCalling self.old.state }
        requires within { IsWithin counts.now self.old.state }
        ensures held { held_in self.new.state ≡ held_in self.old.state }
        ensures hand { whole_in self.new.state ≡ whole_in self.old.state }
        ensures fits { Fits self.new.state result }
        ensures follows { FollowsReady counts.now self.old.state self.new.state }
        ensures left { self.new.left ≡ self.old.left }
    {
        match &self.state {
            State::Creating => self.to(State::Numbering, Command::Number),
            State::PreRecycling(at) => {
                let next = *at + 1;
                self.pre_recycled(counts, next)
            }
            State::Recycling => self.post_recycled(counts, 0),
            State::PostRecycling(at) => {
                let next = *at + 1;
                self.post_recycled(counts, next)
            }
            State::Checking(at) => {
                let next = *at + 1;
                self.checked(counts, next)
            }
            _ => unreachable!(),
        }
    }

    /// A call ended badly, was pending for too long, or was not made. Of a creation this is the cause by which its get
    /// ends.
    pub fn failed(&mut self, cause: Cause) -> Command
        requires calling { IsCalling self.old.state }
        ensures held { held_in self.new.state ≡ held_in self.old.state }
        ensures hand { whole_in self.new.state ≡ whole_in self.old.state }
        ensures fits { Fits self.new.state result }
        ensures follows { FollowsFailed cause self.old.state self.new.state }
        ensures left { self.new.left ≡ self.old.left }
    {
        match &self.state {
            State::Creating => self.to(State::Failing(cause), Command::Make),
            State::Checking(_) => self.to(State::Refusing, Command::Make),
            _ => self.to(State::Discarding, Command::Make),
        }
    }

    /// A call begins that answers nothing: a detach, a drop, or what tells of the pool's end. It is told first, so that
    /// none is made twice, even if it never comes back. What it says is next once the call has come back.
    #[inline(always)]
    pub fn begins(&mut self) -> Command
        requires leaving { IsLeaving self.old.state }
        ensures held { held_in self.new.state ≡ held_in self.old.state }
        ensures waits { waits_in self.new.state ≡ None }
        ensures hand { whole_in self.new.state ≡ 0 }
        ensures fits { Fits self.new.state result }
        ensures follows { FollowsBegun self.old.state self.new.state }
        ensures left { self.new.left ≡ self.old.left }
        ensures nears { Ends self.old.state → Nears self.old.state self.new.state }
    {
        match &self.state {
            State::Parting => self.to(State::Parted, Command::Tell),
            State::Parted => self.to(State::Yielding, Command::Yield),
            State::Detaching(next) => {
                let next = *next;
                self.release_then(next)
            }
            State::Releasing(Then::GoOn) => self.to(State::GoingOn, Command::Make),
            State::Releasing(Then::Cancel) => self.cancel(Held::Place),
            State::Releasing(Then::End(cause)) => {
                let cause = *cause;
                self.tell(cause)
            }
            State::Telling(cause) => {
                let cause = *cause;
                self.to(State::Over(cause), Command::End(cause))
            }
            _ => unreachable!(),
        }
    }

    /// The object leaves the hand for whoever has asked for it, and holds its place from now on, or for its taker.
    #[inline(always)]
    pub fn gives(&mut self)
        requires giving { IsGiving self.old.state }
        ensures over { self.new.state ≡ State.Over Cause.Done }
    {
        self.state = State::Over(Cause::Done);
    }

    /// It is dropped, or a call has never come back, anywhere: what is held is given back, and an object in the hand is
    /// given up. By four commands at most it is at its end, whichever of their calls come back.
    #[cold]
    pub fn dropped(&mut self) -> Command
        ensures held { held_in self.new.state ≡ held_in self.old.state }
        ensures waits { waits_in self.new.state ≡ waits_in self.old.state }
        ensures hand { whole_in self.new.state ≡ whole_in self.old.state }
        ensures fits { Fits self.new.state result }
        ensures follows { self.new.state ≡ after_drop self.old.state }
        ensures ends { Ends self.new.state }
        ensures few { rank self.new.state ≤ 4 }
        ensures nears { Ends self.old.state → rank self.new.state ≤ rank self.old.state }
    {
        match &self.state {
            State::New | State::Entering { .. } => {
                self.to(State::Over(Cause::Dropped), Command::End(Cause::Dropped))
            }
            State::Asking { ticket, .. } | State::Queued(ticket) | State::Withdrawing(ticket, _) =>
                {
                    let ticket = *ticket;
                    self.to(State::Withdrawing(ticket, Cause::Dropped), Command::Make)
                }
            State::Going | State::GoingOn => self.cancel(Held::Place),
            State::Creating | State::Numbering | State::Failing(_) => self.cancel(Held::Creation),
            State::Cancelling(held) => {
                let held = *held;
                self.cancel(held)
            }
            State::Returning => self.to(State::Returning, Command::Back),
            State::Parting => {
                self.to(State::Detaching(Then::End(Cause::Dropped)), Command::Detach)
            }
            State::Detaching(next) => {
                let next = next.dropped();
                self.to(State::Detaching(next), Command::Detach)
            }
            State::Parted | State::Yielding => self.release_then(Then::End(Cause::Dropped)),
            State::Releasing(next) => {
                let next = next.dropped();
                self.release_then(next)
            }
            State::Telling(cause) => {
                let cause = *cause;
                self.tell(cause)
            }
            State::Over(cause) => {
                let cause = *cause;
                self.to(State::Over(cause), Command::End(cause))
            }
            _ => self.cancel(Held::Object),
        }
    }

    // What is held is given back.
    fn cancel(&mut self, held: Held) -> Command
        ensures state { self.new.state ≡ State.Cancelling held }
        ensures left { self.new.left ≡ self.old.left }
        ensures fits { Fits self.new.state result }
    {
        self.to(State::Cancelling(held), Command::Make)
    }
}

impl Then {
    // The same, if its get is dropped meanwhile.
    fn dropped(&self) -> Then
        ensures { result ≡ then_dropped self.now }
    {
        match self {
            Then::GoOn => Then::Cancel,
            next => *next,
        }
    }
}
