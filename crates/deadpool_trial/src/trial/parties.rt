//! The moves of a trial's parties: each has a get, which is started, advanced, polled and cancelled.
ghost use Rattle.std.specs.Prelude.{◌≡◌, ◌≤◌, length, List, vec_capacity};
ghost use Rattle.futures.specs.Task.{Keeps};
ghost use Rattle.deadpool_parts.specs.Program.{Gives};
ghost use Rattle.deadpool_parts.specs.Runs.{last_of};
ghost use Rattle.deadpool_managed.specs.Outside.{may};
ghost use Rattle.deadpool_trial.specs.Pool.{Pool};
ghost use Rattle.deadpool_trial.specs.Moves.{one_step, Polls};
ghost use Rattle.deadpool_trial.specs.TrialFields.{given, reply_to};
ghost use Rattle.deadpool_trial.specs.declared.moves.Move.TheVariants as move;

use super::Trial;
use crate::Reply;
use deadpool_managed::{AsyncHook, Desk, GetState, Kept, Manager, Slot, SyncHook, Timeouts, Turn};
use deadpool_parts::Moment;
use deadpool_parts::tables::{append, put_in};
use futures::task::Context;

impl<M: Manager, F: SyncHook<M>, A: AsyncHook<M>, C: Drop> Trial<M, F, A, C> {
    // Begins a get, if there is a handle, and room for one more party.
    pub(super) fn start(&mut self, timeouts: Option<Timeouts>) -> Reply<M::Type, M::Error>
        ensures made { Gives (may M.Manager F.SyncHook A.AsyncHook self.old.manager)
            (one_step (move.Start timeouts) self.old.pool) (result, self.new.pool) }
        ensures manager { self.new.manager ≡ self.old.manager }
    {
        if !self.core.has_handle() {
            return Reply::NoHandle;
        }
        let party = self.parties.len();
        if party >= self.setup.most_parties {
            return Reply::NoRoom;
        }
        let timeouts = timeouts.unwrap_or(self.setup.timeouts);
        append(&mut self.parties, Some(GetState::new(timeouts)));
        Reply::Started(party)
    }

    // One step of a party's get. An object that it gives is out.
    pub(super) fn advance(
        &mut self,
        party: usize,
        now: Moment,
        cx: &mut Context<'_>,
    ) -> Reply<M::Type, M::Error>
        ensures made { Gives (may M.Manager F.SyncHook A.AsyncHook self.old.manager)
            (one_step (move.Advance party now) self.old.pool) (result, self.new.pool) }
        ensures manager { self.new.manager ≡ self.old.manager }
        ensures kept { Keeps cx.old cx.new }
    {
        if party >= self.parties.len() {
            return Reply::NoSuch;
        }
        match &mut self.parties[party] {
            None => Reply::NoSuch,
            Some(get) => {
                let turn = get.advance(&mut self.core, &self.setup.environment, now, cx);
                hand_out(&mut self.out, turn)
            }
        }
    }

    // All that a party's get has to do at once.
    pub(super) fn poll(
        &mut self,
        party: usize,
        now: Moment,
        cx: &mut Context<'_>,
    ) -> Reply<M::Type, M::Error>
        ensures made { (passed : List (Pool M.Type M.Creating M.Recycling A.State F A))
            × Polls (may M.Manager F.SyncHook A.AsyncHook self.old.manager)
            party now self.old.pool passed result × (self.new.pool ≡ last_of self.old.pool passed) }
        ensures manager { self.new.manager ≡ self.old.manager }
        ensures kept { Keeps cx.old cx.new }
    {
        if party >= self.parties.len() {
            return Reply::NoSuch;
        }
        match &mut self.parties[party] {
            None => Reply::NoSuch,
            Some(get) => {
                let turn = get.poll_over(&mut self.core, &self.setup.environment, now, cx);
                hand_out(&mut self.out, turn)
            }
        }
    }

    // Gives back what a party's get holds. No other party gets its number.
    pub(super) fn cancel(&mut self, party: usize) -> Reply<M::Type, M::Error>
        ensures made { Gives (may M.Manager F.SyncHook A.AsyncHook self.old.manager)
            (one_step (move.Cancel party) self.old.pool) (result, self.new.pool) }
        ensures manager { self.new.manager ≡ self.old.manager }
    {
        if party >= self.parties.len() {
            return Reply::NoSuch;
        }
        match self.parties[party].take() {
            None => Reply::NoSuch,
            Some(state) => {
                state.cancel(&mut self.core, &self.setup.environment);
                Reply::Cancelled
            }
        }
    }
}

// Keeps the object that a turn gives, for which there is room, and says what the turn came to.
fn hand_out<T: Drop, E>(out: &mut Vec<Slot<Kept<T>>>, turn: Turn<T, E>) -> Reply<T, E>
    requires { length (given turn out.old.items) ≤ vec_capacity out.old }
    ensures out { out.new.items ≡ given turn out.old.items }
    ensures reply { result ≡ reply_to turn }
    ensures capacity { vec_capacity out.old ≤ vec_capacity out.new }
{
    match turn {
        Turn::More => Reply::More,
        Turn::Pending => Reply::Pending,
        Turn::Done(Err(cause)) => Reply::Failed(cause),
        Turn::Done(Ok(slot)) => {
            let number = slot.number;
            put_in(out, slot);
            Reply::Object(number)
        }
    }
}
