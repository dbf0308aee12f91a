//! The order, the step that it has, and the replies that it is told.
ghost use Rattle.std.specs.Prelude.{◌≡◌, ◌↔◌, IsTrue, Some, None};
ghost use Rattle.deadpool_desk.specs.Replies.{IsReplyTo, held_if_served, left_by, named, needed};
ghost use Rattle.deadpool_desk.specs.declared.step.Held.{Held};
ghost use Rattle.deadpool_order.specs.Commands.{Fits, IsMaking, step_in};
ghost use Rattle.deadpool_order.specs.Ends.{Ends, IsOver, Nears};
ghost use Rattle.deadpool_order.specs.Follows.{FollowsChecked, FollowsPostRecycled};
ghost use Rattle.deadpool_order.specs.Follows.{FollowsPreRecycled, FollowsReply, FollowsServing};
ghost use Rattle.deadpool_order.specs.Follows.{IsServing, allowance_by, cause_or, gone_by};
ghost use Rattle.deadpool_order.specs.Has.{given_by, held_in, waits_by, waits_in, whole_by, whole_in};
ghost use Rattle.deadpool_order.specs.declared.state.State.{State};

mod events;

use crate::{Cause, Command, HookCounts, State, Then};
use deadpool_desk::{Held, Reply, Step};

/// The order of a get, of a return or of a take.
#[derive(Drop)]
pub struct Order {
    state: State,
    // How many more idle objects its get may take in this poll. None set is as many as are idle.
    left: Option<usize>,
}

impl Order {
    /// That of a get, which was not polled yet.
    pub fn new() -> Self
        ensures state { result.state ≡ State.New }
        ensures left { result.left ≡ None }
    {
        Order {
            state: State::New,
            left: None,
        }
    }

    /// That of an object which comes back. Its first command is `Back`.
    pub fn returning() -> Self
        ensures state { result.state ≡ State.Returning }
        ensures left { result.left ≡ None }
    {
        Order {
            state: State::Returning,
            left: None,
        }
    }

    /// That of an object which is taken out of the pool. Its first command is `Make`.
    pub fn taking() -> Self
        ensures state { result.state ≡ State.Taking }
        ensures left { result.left ≡ None }
    {
        Order {
            state: State::Taking,
            left: None,
        }
    }

    /// One that is at this state, as it was read of another one.
    pub fn resumed(state: State, left: Option<usize>) -> Self
        ensures state { result.state ≡ state }
        ensures left { result.left ≡ left }
    {
        Order { state, left }
    }

    /// How far it is.
    pub fn state(&self) -> &State
        ensures { result.now ≡ self.now.state }
    {
        &self.state
    }

    /// How many more idle objects its get may take in this poll. None set is as many as are idle.
    pub fn left(&self) -> Option<usize>
        ensures { result ≡ self.now.left }
    {
        self.left
    }

    /// Whether nothing is left to do.
    #[inline(always)]
    pub fn is_over(&self) -> bool
        ensures { IsTrue result ↔ IsOver self.now.state }
    {
        matches!(&self.state, State::Over(_))
    }

    /// The step that is to be made.
    pub fn step(&self) -> Step
        requires { IsMaking self.now.state }
        ensures step { step_in self.now.left self.now.state ≡ Some result }
        ensures needs { needed result ≡ held_in self.now.state }
        ensures names { named result ≡ waits_in self.now.state }
    {
        match &self.state {
            State::Entering { wait } => Step::Enter { wait: *wait },
            State::Asking { ticket, expired } => Step::Ask {
                ticket: *ticket,
                expired: *expired,
            },
            State::GoingOn => Step::Again {
                allowance: self.left,
            },
            State::Numbering => Step::Created,
            State::Failing(_) => Step::Failed,
            State::Discarding => Step::Discard,
            State::Refusing => Step::Refused,
            State::Withdrawing(ticket, _) => Step::Withdraw { ticket: *ticket },
            State::Cancelling(held) => Step::Cancel(*held),
            State::Returning => Step::Back,
            State::Taking => Step::Take,
            _ => unreachable!(),
        }
    }

    /// The step was made, and has this reply. It is told before any code of a user's runs, wakers among it.
    #[inline(always)]
    pub fn replied(&mut self, counts: &HookCounts, step: &Step, reply: Reply) -> Command
        requires making { step_in self.old.left self.old.state ≡ Some step.now }
        requires reply { IsReplyTo step.now reply }
        ensures held { held_in self.new.state ≡ left_by step.now reply }
        ensures waits { waits_in self.new.state ≡ waits_by reply }
        ensures hand { whole_in self.new.state ≡ whole_by step.now reply }
        ensures fits { Fits self.new.state result }
        ensures follows { FollowsReply counts.now self.old.state reply self.new.state }
        ensures left { self.new.left ≡ allowance_by reply self.old.left }
        ensures nears { Ends self.old.state → Nears self.old.state self.new.state }
    {
        match step {
            Step::Enter { .. } | Step::Ask { .. } | Step::Again { .. } => {
                self.served(counts, reply)
            }
            Step::Created => match reply {
                Reply::Number(_) => self.checked(counts, 0),
                _ => self.gone(Then::End(Cause::Closed), reply),
            },
            Step::Discard => self.gone(Then::GoOn, reply),
            Step::Refused => self.gone(Then::End(Cause::Refused), reply),
            Step::Cancel(Held::Object) => self.gone(Then::End(Cause::Dropped), reply),
            Step::Cancel(_) => self.tell(cause_or(Cause::Dropped, reply)),
            Step::Failed => {
                let cause = match &self.state {
                    State::Failing(cause) => *cause,
                    _ => Cause::Failed,
                };
                self.tell(cause_or(cause, reply))
            }
            Step::Withdraw { .. } => {
                let cause = match &self.state {
                    State::Withdrawing(_, cause) => *cause,
                    _ => Cause::Dropped,
                };
                self.to(State::Over(cause), Command::End(cause))
            }
            Step::Back => match reply {
                Reply::Kept => self.to(State::Over(Cause::Done), Command::End(Cause::Done)),
                _ => self.gone(Then::End(Cause::Done), reply),
            },
            Step::Take => match reply {
                Reply::Taken { detach: false } => self.to(State::Parted, Command::Tell),
                _ => self.to(State::Parting, Command::Part),
            },
        }
    }

    // The reply to a get that asks for a place. One that had a place, and has none any more, tells of it.
    #[inline(always)]
    fn served(&mut self, counts: &HookCounts, reply: Reply) -> Command
        requires serving { IsServing reply }
        ensures held { held_in self.new.state ≡ held_if_served reply }
        ensures waits { waits_in self.new.state ≡ waits_by reply }
        ensures hand { whole_in self.new.state ≡ given_by reply }
        ensures fits { Fits self.new.state result }
        ensures follows { FollowsServing counts.now reply self.new.state }
        ensures left { self.new.left ≡ allowance_by reply self.old.left }
    {
        let cause = match reply {
            Reply::Object { left } => {
                self.left = Some(left);
                return self.pre_recycled(counts, 0);
            }
            Reply::Create => return self.to(State::Creating, Command::Create),
            Reply::Going => {
                self.left = None;
                return self.to(State::Going, Command::Pause);
            }
            Reply::Waiting(ticket) => return self.to(State::Queued(ticket), Command::Wait(ticket)),
            Reply::Exhausted => return self.tell(Cause::NumbersExhausted),
            Reply::Full | Reply::Expired => Cause::NoPlace,
            Reply::Crowded => Cause::Crowded,
            Reply::OutOfMemory => Cause::OutOfMemory,
            _ => Cause::Closed,
        };
        self.to(State::Over(cause), Command::End(cause))
    }

    // An object has left the pool. It is detached, if the pool has given it up or does not know it.
    #[inline(always)]
    fn gone(&mut self, next: Then, reply: Reply) -> Command
        ensures state { self.new.state ≡ gone_by next reply }
        ensures left { self.new.left ≡ self.old.left }
        ensures fits { Fits self.new.state result }
    {
        match reply {
            Reply::Done | Reply::Detach => self.detach_then(next),
            Reply::Dropped => self.release_then(next),
            _ => self.detach_then(Then::End(Cause::Closed)),
        }
    }

    // The hooks before the recycling see the object, from this one on, then it is recycled.
    #[inline(always)]
    fn pre_recycled(&mut self, counts: &HookCounts, at: usize) -> Command
        ensures held { held_in self.new.state ≡ Some Held.Object }
        ensures waits { waits_in self.new.state ≡ None }
        ensures hand { whole_in self.new.state ≡ 1 }
        ensures fits { Fits self.new.state result }
        ensures follows { FollowsPreRecycled counts.now at self.new.state }
        ensures left { self.new.left ≡ self.old.left }
    {
        if at < counts.pre_recycle {
            return self.to(State::PreRecycling(at), Command::PreRecycle(at));
        }
        self.to(State::Recycling, Command::Recycle)
    }

    // The hooks after the recycling see it, from this one on, then it is given out.
    #[inline(always)]
    fn post_recycled(&mut self, counts: &HookCounts, at: usize) -> Command
        ensures held { held_in self.new.state ≡ Some Held.Object }
        ensures waits { waits_in self.new.state ≡ None }
        ensures hand { whole_in self.new.state ≡ 1 }
        ensures fits { Fits self.new.state result }
        ensures follows { FollowsPostRecycled counts.now at self.new.state }
        ensures left { self.new.left ≡ self.old.left }
    {
        if at < counts.post_recycle {
            return self.to(State::PostRecycling(at), Command::PostRecycle(at));
        }
        let recycled = true;
        self.to(State::Giving { recycled }, Command::Give { recycled })
    }

    // The hooks see the new object, from this one on, then it is given out.
    #[inline(always)]
    fn checked(&mut self, counts: &HookCounts, at: usize) -> Command
        ensures held { held_in self.new.state ≡ Some Held.Object }
        ensures waits { waits_in self.new.state ≡ None }
        ensures hand { whole_in self.new.state ≡ 1 }
        ensures fits { Fits self.new.state result }
        ensures follows { FollowsChecked counts.now at self.new.state }
        ensures left { self.new.left ≡ self.old.left }
    {
        if at < counts.post_create {
            return self.to(State::Checking(at), Command::PostCreate(at));
        }
        let recycled = false;
        self.to(State::Giving { recycled }, Command::Give { recycled })
    }

    // The manager is told of what is in the hand.
    #[inline(always)]
    fn detach_then(&mut self, next: Then) -> Command
        ensures state { self.new.state ≡ State.Detaching next }
        ensures left { self.new.left ≡ self.old.left }
        ensures fits { Fits self.new.state result }
    {
        self.to(State::Detaching(next), Command::Detach)
    }

    // What is in the hand is dropped, if anything is.
    #[inline(always)]
    fn release_then(&mut self, next: Then) -> Command
        ensures state { self.new.state ≡ State.Releasing next }
        ensures left { self.new.left ≡ self.old.left }
        ensures fits { Fits self.new.state result }
    {
        self.to(State::Releasing(next), Command::Release)
    }

    // Those that wait for the pool's end are told, and it ends.
    #[inline(always)]
    fn tell(&mut self, cause: Cause) -> Command
        ensures state { self.new.state ≡ State.Telling cause }
        ensures left { self.new.left ≡ self.old.left }
        ensures fits { Fits self.new.state result }
    {
        self.to(State::Telling(cause), Command::Tell)
    }

    #[inline(always)]
    fn to(&mut self, state: State, command: Command) -> Command
        ensures state { self.new.state ≡ state }
        ensures left { self.new.left ≡ self.old.left }
        ensures command { result ≡ command }
    {
        self.state = state;
        command
    }
}

// Why a get ends, unless the desk did not know its step.
#[inline(always)]
fn cause_or(cause: Cause, reply: Reply) -> Cause
    ensures { result ≡ cause_or cause reply }
{
    match reply {
        Reply::Unknown => Cause::Closed,
        _ => cause,
    }
}
