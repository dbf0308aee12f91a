//! An unmanaged pool on one thread, with its parties and the objects that are out.
ghost use Rattle.std.specs.Prelude.{◌≡◌, ◌≢◌, ◌==◌, ◌<◌, ◌≤◌, ◌+◌, [], List, length, MatchResult, IfOk, Option};
ghost use Rattle.std.specs.Prelude.{vec_len, vec_capacity, None};
ghost use Rattle.std.specs.Option.{option_map};
ghost use Rattle.deadpool_gate.specs.Numbers.{largest_usize};
ghost use Rattle.deadpool_parts.specs.Runs.{all_states, Each};
ghost use Rattle.deadpool_unmanaged.specs.StateSteps.{Does};
ghost use Rattle.deadpool_unmanaged.specs.declared.step.Step.TheVariants.{Take};
ghost use Rattle.deadpool_trial.specs.Unmanaged.Moves.{Gives, PoolRuns, NobodyWaits, IsWithinLimit};
ghost use Rattle.deadpool_trial.specs.Unmanaged.Pool.{Pool, bounded, opened};
ghost use Rattle.deadpool_trial.specs.Unmanaged.RunLaws.{RunInvariant};
ghost use Rattle.deadpool_trial.specs.Unmanaged.Steps.{find_item};
ghost use Rattle.deadpool_trial.specs.Unmanaged.TrialFields.{PollsVisitor, PolledGet, PolledAdd, CancelsVisitor};
ghost use Rattle.deadpool_trial.specs.Unmanaged.TrialFields.{IsAtOnce, IsRefusal, IsKnown, given, refusal_of};
ghost use Rattle.deadpool_trial.specs.Unmanaged.TrialFields.{reply_to, reply_to_back, reply_to_handle};
ghost use Rattle.deadpool_trial.specs.Unmanaged.TrialFields.{reply_to_try_add};
ghost use Rattle.deadpool_trial.specs.declared.unmanaged.trial.Visitor.TheVariants as visitor;
ghost use Rattle.deadpool_trial.specs.declared.unmanaged.moves.Move.TheVariants as move;

mod seen;

use crate::unmanaged::tallied_core::TalliedCore;
use crate::unmanaged::{Item, Move, Reply};
use deadpool_parts::tables::{append, put_in, take_out};
use deadpool_unmanaged::{
    AddState, Core, GetState, HandleReply, Moment, PoolError, Reply as CoreReply, Runtime, Step,
};
use futures::task::Poll;
use std::alloc::{AllocError, Global};
use std::marker::Model;
use std::time::Duration;

// A party that was not cancelled.
#[derive(Drop)]
pub(crate) enum Visitor<T> {
    Get(GetState),
    Add(AddState<Item<T>>),
}

// What a poll of a party comes to.
#[derive(Drop)]
pub(crate) enum Turn<T> {
    Pending,
    Object(Item<T>),
    Added(usize),
    Failed(PoolError),
    Refused(PoolError, T),
}

/// An unmanaged pool on one thread, with its parties and the objects that are out. No clock is asked: each poll says
/// its moment.
#[derive(Drop)]
pub struct Trial<T> {
    core: TalliedCore<Item<T>>,
    runtime: Option<Runtime>,
    // By number; none if the party was cancelled.
    visitors: Vec<Option<Visitor<T>>>,
    // By rising number.
    out: Vec<Item<T>>,
    most_parties: usize,
    next: usize,
    alloc: Global,
}

impl<T> Model for Trial<T> {
    ghost use Rattle.deadpool_trial.specs.Unmanaged.Pool.{Pool};

    ghost Value = { Pool T };

    ghost use Rattle.std.specs.Prelude.{◌≤◌, vec_len, vec_capacity};
    ghost use Rattle.deadpool_trial.specs.Unmanaged.Image.{image, TrialInvariant};
    ghost use Rattle.deadpool_trial.specs.Unmanaged.RunLaws.{RunInvariant};

    ghost view = { λ t. image t.runtime t.most_parties t.next t.core.pool t.visitors.items t.out.items };

    ghost invariant = { λ t. record {
      counted : TrialInvariant t.core.pool t.visitors.items t.out.items;
      well : RunInvariant (image t.runtime t.most_parties t.next t.core.pool t.visitors.items t.out.items);
      parties : vec_len t.visitors ≤ t.most_parties;
      places : t.most_parties ≤ vec_capacity t.visitors;
      out_room : t.core.pool.limit ≤ vec_capacity t.out;
    } };
}

impl<T: Drop> Trial<T> {
    /// A new pool for `max_size` objects, with room for so many parties and for all objects to be out.
    pub fn new(
        alloc: Global,
        max_size: usize,
        runtime: Option<Runtime>,
        parties: usize,
    ) -> Result<Self, AllocError>
        ensures { IfOk result (λ t. t ≡ opened max_size runtime parties) }
    {
        let core = Core::new(alloc, max_size)?;
        let tallied = TalliedCore::new(core);
        Ok(Trial {
            core: tallied,
            runtime,
            visitors: Vec::with_capacity(alloc, parties)?,
            out: Vec::with_capacity(alloc, max_size)?,
            most_parties: parties,
            next: 0,
            alloc,
        })
    }

    /// The pool with a bound on the gets that wait, and on the adds, or with none, before any waits.
    pub fn bounded(self, max_waiting: Option<usize>) -> Self
        requires gets { self.gets.waiting ≡ [] }
        requires adds { self.adds.waiting ≡ [] }
        ensures { result ≡ bounded max_waiting self }
    {
        Trial {
            core: self.core.bounded(max_waiting),
            ..self
        }
    }

    /// What is true of the pool of every trial. The call does nothing.
    pub fn laws(&self)
        ensures { RunInvariant self.now }
    {
        let _ = &self.core;
    }

    /// What value an object has, if it is out.
    pub fn value(&self, number: usize) -> Option<&T>
        ensures { option_map (λ v. v.now) result
            ≡ option_map (λ s. s.value) (find_item number self.now.out) }
    {
        self.out
            .iter()
            .find(|item| item.number == number)
            .map(|item| &item.value)
    }

    /// Makes the moves in turn, and gives the reply to each. If there is no memory for so many replies, no move is
    /// made, and all of them come back.
    pub fn run(&mut self, moves: Vec<Move<T>>) -> Result<Vec<Reply<T>>, Vec<Move<T>>>
        ensures run { MatchResult result
            (λ replies. (passed : List (List (Pool T)))
            × PoolRuns self.old moves.items passed replies.items self.new
            × Each NobodyWaits (all_states self.old passed)
            × Each IsWithinLimit (all_states self.old passed))
            (λ refused. (refused ≡ moves) × (self.new ≡ self.old)) }
    {
        let Ok(mut replies) = Vec::with_capacity(self.alloc, moves.len()) else {
            return Err(moves);
        };
        for first in moves {
            let reply = self.make(first);
            append(&mut replies, reply);
        }
        Ok(replies)
    }

    /// Makes one move, and gives the reply to it.
    pub fn make(&mut self, next: Move<T>) -> Reply<T>
        ensures { Gives next self.old result self.new }
    {
        match next {
            Move::Get(wait) => self.start_get(wait),
            Move::Add(value) => self.start_add(value),
            Move::Poll(party, now) => self.poll(party, now),
            Move::TryGet => self.try_get(),
            Move::TryAdd(value) => self.try_add(value),
            Move::Cancel(party) => self.cancel(party),
            Move::Back(number) => self.back(number),
            Move::Take(number) => self.take(number),
            Move::Close => self.close(),
            Move::Status => self.status(),
            Move::Clone => self.clone_handle(),
            Move::DropHandle => self.drop_handle(),
            Move::Upgrade => self.upgrade(),
        }
    }

    fn start_get(&mut self, wait: Option<Duration>) -> Reply<T>
        ensures { Gives (move.Get wait) self.old result self.new }
    {
        if !self.core.has_handle() {
            return Reply::NoHandle;
        }
        let party = self.visitors.len();
        if party >= self.most_parties {
            return Reply::NoRoom;
        }
        append(&mut self.visitors, Some(Visitor::Get(GetState::new(wait))));
        Reply::Started(party)
    }

    fn start_add(&mut self, value: T) -> Reply<T>
        ensures { Gives (move.Add value) self.old result self.new }
    {
        if !self.core.has_handle() {
            return Reply::NoHandle;
        }
        let party = self.visitors.len();
        if party >= self.most_parties {
            return Reply::NoRoom;
        }
        match draw(&mut self.next, value) {
            Ok(item) => {
                append(&mut self.visitors, Some(Visitor::Add(AddState::new(item))));
                Reply::Started(party)
            }
            Err(value) => Reply::Exhausted(value),
        }
    }

    fn poll(&mut self, party: usize, now: Moment) -> Reply<T>
        ensures { Gives (move.Poll party now) self.old result self.new }
    {
        if party >= self.visitors.len() {
            return Reply::NoSuch;
        }
        let visitor = &mut self.visitors[party];
        match poll_visitor(visitor, &mut self.core, self.runtime, now) {
            None => Reply::NoSuch,
            Some(turn) => hand_out(&mut self.out, turn),
        }
    }

    fn try_get(&mut self) -> Reply<T>
        ensures { Gives move.TryGet self.old result self.new }
    {
        if !self.core.has_handle() {
            return Reply::NoHandle;
        }
        let mut hand = None;
        let reply = self.core.make(&Step::GetEnter { wait: false }, &mut hand);
        match hand {
            Some(item) => {
                let number = item.number;
                put_in(&mut self.out, item);
                Reply::Object(number)
            }
            None => Reply::Failed(refusal(reply)),
        }
    }

    fn try_add(&mut self, value: T) -> Reply<T>
        ensures { Gives (move.TryAdd value) self.old result self.new }
    {
        if !self.core.has_handle() {
            return Reply::NoHandle;
        }
        let item = match draw(&mut self.next, value) {
            Ok(item) => item,
            Err(value) => return Reply::Exhausted(value),
        };
        let number = item.number;
        let mut hand = Some(item);
        let reply = self.core.make(&Step::AddEnter { wait: false }, &mut hand);
        after_try_add(number, reply, hand)
    }

    fn cancel(&mut self, party: usize) -> Reply<T>
        ensures { Gives (move.Cancel party) self.old result self.new }
    {
        if party >= self.visitors.len() {
            return Reply::NoSuch;
        }
        match self.visitors[party].take() {
            None => Reply::NoSuch,
            Some(visitor) => {
                cancel_visitor(visitor, &mut self.core);
                Reply::Cancelled
            }
        }
    }

    fn back(&mut self, number: usize) -> Reply<T>
        ensures { Gives (move.Back number) self.old result self.new }
    {
        match take_out(&mut self.out, number) {
            None => Reply::NoSuch,
            Some(item) => {
                let reply = self.core.make(&Step::Back, &mut Some(item));
                after_back(reply)
            }
        }
    }

    fn take(&mut self, number: usize) -> Reply<T>
        ensures { Gives (move.Take number) self.old result self.new }
    {
        match take_out(&mut self.out, number) {
            None => Reply::NoSuch,
            Some(item) => {
                let reply = leave(&mut self.core);
                after_take(item, reply)
            }
        }
    }

    fn close(&mut self) -> Reply<T>
        ensures { Gives move.Close self.old result self.new }
    {
        if !self.core.has_handle() {
            return Reply::NoHandle;
        }
        self.core.close();
        Reply::Done
    }

    fn status(&self) -> Reply<T>
        ensures { Gives move.Status self.now result self.now }
    {
        if !self.core.has_handle() {
            return Reply::NoHandle;
        }
        Reply::Stands(self.core.status())
    }

    fn clone_handle(&mut self) -> Reply<T>
        ensures { Gives move.Clone self.old result self.new }
    {
        let reply = self.core.clone_handle();
        after_handle(reply)
    }

    fn drop_handle(&mut self) -> Reply<T>
        ensures { Gives move.DropHandle self.old result self.new }
    {
        let reply = self.core.drop_handle();
        after_handle(reply)
    }

    fn upgrade(&mut self) -> Reply<T>
        ensures { Gives move.Upgrade self.old result self.new }
    {
        Reply::Upgraded(self.core.upgrade())
    }
}

// Gives an object that is handed in the next number, or the value back if no number is left.
fn draw<T: Drop>(next: &mut usize, value: T) -> Result<Item<T>, T>
    ensures { MatchResult result
        (λ item. (next.old ≢ largest_usize) × (item ≡ record { number = next.old; value = value })
        × (next.new ≡ next.old + 1))
        (λ given. (next.old ≡ largest_usize) × (given ≡ value) × (next.new ≡ next.old)) }
{
    if *next == usize::MAX {
        return Err(value);
    }
    let number = *next;
    *next += 1;
    Ok(Item { number, value })
}

// Polls a party that was not cancelled.
fn poll_visitor<T: Drop>(
    visitor: &mut Option<Visitor<T>>,
    core: &mut TalliedCore<Item<T>>,
    runtime: Option<Runtime>,
    now: Moment,
) -> Option<Turn<T>>
    ensures { PollsVisitor runtime now visitor.old core.old.pool result visitor.new core.new.pool }
{
    match visitor {
        None => None,
        Some(Visitor::Get(state)) => Some(poll_get(state, core, runtime, now)),
        Some(Visitor::Add(state)) => Some(poll_add(state, core)),
    }
}

fn poll_get<T: Drop>(
    state: &mut GetState,
    core: &mut TalliedCore<Item<T>>,
    runtime: Option<Runtime>,
    now: Moment,
) -> Turn<T>
    ensures { PolledGet runtime now state.old core.old.pool
        (Option.Some result) (Option.Some (visitor.Get state.new)) core.new.pool }
{
    match core.poll_get(state, runtime, now) {
        Poll::Pending => Turn::Pending,
        Poll::Ready(Ok(item)) => Turn::Object(item),
        Poll::Ready(Err(cause)) => Turn::Failed(cause),
    }
}

// An add that has ended has no object and is not polled any more.
fn poll_add<T: Drop>(state: &mut AddState<Item<T>>, core: &mut TalliedCore<Item<T>>) -> Turn<T>
    ensures { PolledAdd state.old core.old.pool
        (Option.Some result) (Option.Some (visitor.Add state.new)) core.new.pool }
{
    let Some(item) = state.value() else {
        return Turn::Pending;
    };
    let number = item.number;
    match core.poll_add(state) {
        Poll::Pending => Turn::Pending,
        Poll::Ready(Ok(())) => Turn::Added(number),
        Poll::Ready(Err((item, cause))) => Turn::Refused(cause, item.value),
    }
}

// Gives a party up.
fn cancel_visitor<T: Drop>(visitor: Visitor<T>, core: &mut TalliedCore<Item<T>>)
    ensures { CancelsVisitor visitor core.old.pool core.new.pool }
{
    match visitor {
        Visitor::Get(state) => core.cancel_get(state),
        Visitor::Add(state) => core.cancel_add(state),
    }
}

// Why one that does not wait is refused.
fn refusal(reply: CoreReply) -> PoolError
    requires { IsRefusal reply }
    ensures { result ≡ refusal_of reply }
{
    match reply {
        CoreReply::Closed => PoolError::Closed,
        CoreReply::Full => PoolError::Timeout,
        _ => unreachable!(),
    }
}

// The reply to an object that was handed in with this number, by an add that did not wait. It is in the hand if it was
// refused.
fn after_try_add<T: Drop>(number: usize, reply: CoreReply, hand: Option<Item<T>>) -> Reply<T>
    requires { IsAtOnce reply hand }
    ensures { result ≡ reply_to_try_add number reply hand }
{
    match hand {
        None => Reply::Added(number),
        Some(item) => Reply::Refused(refusal(reply), item.value),
    }
}

// The reply to an object that came back, of which the pool knew.
fn after_back<T: Drop>(reply: CoreReply) -> Reply<T>
    requires { IsKnown reply }
    ensures { result ≡ reply_to_back reply }
{
    match reply {
        CoreReply::Kept => Reply::Kept,
        CoreReply::Dropped => Reply::Dropped,
        _ => unreachable!(),
    }
}

// The step of an object that leaves for good.
fn leave<T: Drop>(core: &mut TalliedCore<T>) -> CoreReply
    ensures { Does core.old.pool Take None result core.new.pool }
{
    core.make(&Step::Take, &mut None)
}

// The reply to an object that left, of which the pool knew.
fn after_take<T: Drop>(item: Item<T>, reply: CoreReply) -> Reply<T>
    requires { reply ≡ CoreReply.Taken }
    ensures { result ≡ Reply.Taken item.value }
{
    match reply {
        CoreReply::Taken => Reply::Taken(item.value),
        _ => unreachable!(),
    }
}

// The reply to a step that needs a handle.
fn after_handle<T>(reply: HandleReply) -> Reply<T>
    ensures { result ≡ reply_to_handle reply }
{
    match reply {
        HandleReply::Done => Reply::Done,
        HandleReply::NoHandle => Reply::NoHandle,
    }
}

// Keeps the object that a turn gives, for which there is room, and says what the turn came to.
fn hand_out<T: Drop>(out: &mut Vec<Item<T>>, turn: Turn<T>) -> Reply<T>
    requires { length (given turn out.old.items) ≤ vec_capacity out.old }
    ensures out { out.new.items ≡ given turn out.old.items }
    ensures reply { result ≡ reply_to turn }
    ensures capacity { vec_capacity out.old ≤ vec_capacity out.new }
{
    match turn {
        Turn::Pending => Reply::Pending,
        Turn::Object(item) => {
            let number = item.number;
            put_in(out, item);
            Reply::Object(number)
        }
        Turn::Added(number) => Reply::Added(number),
        Turn::Failed(cause) => Reply::Failed(cause),
        Turn::Refused(cause, value) => Reply::Refused(cause, value),
    }
}
