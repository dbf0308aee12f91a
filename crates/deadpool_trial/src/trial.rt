//! A managed pool on one thread, with its parties and the objects that are out.
ghost use Rattle.std.specs.Prelude.{◌≡◌, ◌↔◌, true, List, IfOk, IfErr};
ghost use Rattle.std.specs.Option.{option_map};
ghost use Rattle.futures.specs.Task.{Keeps};
ghost use Rattle.deadpool_parts.specs.Runs.{last_of, all_states, Each, Neighbours};
ghost use Rattle.deadpool_parts.specs.declared.errors.BuildError.{BuildError};
ghost use Rattle.deadpool_builder.specs.Building.{lacks_any_runtime};
ghost use Rattle.deadpool_managed.specs.Outside.{may};
ghost use Rattle.deadpool_trial.specs.Pool.{Pool, bounded, opened};
ghost use Rattle.deadpool_trial.specs.Steps.{find_slot};
ghost use Rattle.deadpool_trial.specs.Moves.{MakesMove, PoolRuns, NobodyWaits, WaitsWithin, WithinReach};
ghost use Rattle.deadpool_trial.specs.RunLaws.{RunInvariant};

mod objects;
mod owner;
mod parties;
mod seen;

use crate::tallied_core::TalliedCore;
use crate::{Move, Reply};
use deadpool_builder::{OpenPool, PoolBuilder};
use deadpool_managed::{
    AsyncHook, BuildError, Environment, GetState, Kept, Manager, OwnerStep, Slot, SyncHook,
    Timeouts,
};
use deadpool_parts::tables::append;
use futures::task::Context;
use std::alloc::Global;
use std::marker::Model;

// What never changes in a trial.
#[derive(Drop)]
struct Setup<M: Manager, F: SyncHook<M>, A: AsyncHook<M>> {
    environment: Environment<M, F, A>,
    // The configured ones.
    timeouts: Timeouts,
    most_parties: usize,
    // The number of the first object.
    first: usize,
}

/// A managed pool on one thread, with its parties and the objects that are out. The clock of its builder is kept and
/// not asked: each move says its moment.
#[derive(Drop)]
pub struct Trial<M: Manager, F: SyncHook<M>, A: AsyncHook<M>, C: Drop> {
    setup: Setup<M, F, A>,
    core: TalliedCore<Kept<M::Type>>,
    // By number; none if the party was cancelled.
    parties: Vec<Option<GetState<M, A>>>,
    // By rising number.
    out: Vec<Slot<Kept<M::Type>>>,
    clock: C,
    alloc: Global,
}

impl<M: Manager, F: SyncHook<M>, A: AsyncHook<M>, C: Drop> Model for Trial<M, F, A, C> {
    ghost use Rattle.deadpool_trial.specs.TrialState.{TrialState};

    ghost Value = { TrialState M M.Type M.Creating M.Recycling A.State F A };

    ghost use Rattle.std.specs.Prelude.{◌≤◌, vec_len, vec_capacity};
    ghost use Rattle.deadpool_trial.specs.Image.{image, TrialInvariant};
    ghost use Rattle.deadpool_trial.specs.RunLaws.{RunInvariant};

    ghost view = { λ t. record {
      pool = image t.setup t.core.desk t.parties.items t.out.items;
      manager = t.setup.environment.manager;
    } };

    ghost invariant = { λ t. record {
      counted : TrialInvariant t.core.desk t.parties.items t.out.items;
      well : RunInvariant (image t.setup t.core.desk t.parties.items t.out.items);
      parties : vec_len t.parties ≤ t.setup.most_parties;
      party_room : t.setup.most_parties ≤ vec_capacity t.parties;
      out_room : t.setup.most_parties ≤ vec_capacity t.out;
    } };
}

impl<M: Manager, F: SyncHook<M>, A: AsyncHook<M>, C: Drop> Trial<M, F, A, C> {
    /// A new pool, with room for so many parties, whose first object gets this number. If it is not made, the builder
    /// is dropped with all that it has.
    pub fn new(
        builder: PoolBuilder<M, F, A, C>,
        parties: usize,
        first_number: usize,
    ) -> Result<Self, BuildError>
        ensures refused { (result ≡ Err BuildError.NoRuntimeSpecified)
            ↔ (lacks_any_runtime builder.runtime builder.timeouts ≡ true) }
        ensures pool { IfOk result (λ t. t.pool ≡ bounded builder.max_waiting
            (opened builder.max_size builder.queue_mode builder.runtime builder.hooks
            builder.timeouts first_number parties builder.min_idle)) }
        ensures manager { IfOk result (λ t. t.manager ≡ builder.manager) }
    {
        let OpenPool {
            core,
            environment,
            timeouts,
            clock,
            alloc,
        } = builder.open(first_number)?;
        let setup = Setup {
            environment,
            timeouts,
            most_parties: parties,
            first: first_number,
        };
        Ok(Trial {
            setup,
            core: TalliedCore::new(core),
            parties: Vec::with_capacity(alloc, parties)?,
            out: Vec::with_capacity(alloc, parties)?,
            clock,
            alloc,
        })
    }

    /// What is true of the pool of every trial. The call does nothing.
    pub fn laws(&self)
        ensures { RunInvariant self.now.pool }
    {
        let _ = &self.core;
    }

    /// What value an object has, if it is out.
    pub fn value(&self, number: usize) -> Option<&M::Type>
        ensures { option_map (λ v. v.now) result
            ≡ option_map (λ s. s.value.value) (find_slot number self.now.pool.out) }
    {
        self.out
            .iter()
            .find(|slot| slot.number == number)
            .map(|slot| &slot.value.value)
    }

    /// Makes the moves in turn, and gives the reply to each. If there is no memory for so many replies, no move is
    /// made, and all of them come back.
    pub fn run(
        &mut self,
        moves: Vec<Move<M::Type>>,
        cx: &mut Context<'_>,
    ) -> Result<Vec<Reply<M::Type, M::Error>>, Vec<Move<M::Type>>>
        ensures run { IfOk result (λ replies.
            (passed : List (List (Pool M.Type M.Creating M.Recycling A.State F A)))
            × PoolRuns (may M.Manager F.SyncHook A.AsyncHook self.old.manager)
            self.old.pool moves.items passed replies.items self.new.pool) }
        ensures nobody_waits { IfOk result (λ replies.
            (passed : List (List (Pool M.Type M.Creating M.Recycling A.State F A)))
            → PoolRuns (may M.Manager F.SyncHook A.AsyncHook self.old.manager)
            self.old.pool moves.items passed replies.items self.new.pool
            → Each NobodyWaits (all_states self.old.pool passed)) }
        ensures waits_within { IfOk result (λ replies.
            (passed : List (List (Pool M.Type M.Creating M.Recycling A.State F A)))
            → PoolRuns (may M.Manager F.SyncHook A.AsyncHook self.old.manager)
            self.old.pool moves.items passed replies.items self.new.pool
            → Each WaitsWithin (all_states self.old.pool passed)) }
        ensures within_reach { IfOk result (λ replies.
            (passed : List (List (Pool M.Type M.Creating M.Recycling A.State F A)))
            → PoolRuns (may M.Manager F.SyncHook A.AsyncHook self.old.manager)
            self.old.pool moves.items passed replies.items self.new.pool
            → Neighbours WithinReach (all_states self.old.pool passed)) }
        ensures refused { IfErr result (λ refused. (refused ≡ moves) × (self.new ≡ self.old)) }
        ensures manager { self.new.manager ≡ self.old.manager }
        ensures kept { Keeps cx.old cx.new }
    {
        let Ok(mut replies) = Vec::with_capacity(self.alloc, moves.len()) else {
            return Err(moves);
        };
        for first in moves {
            let reply = self.make(first, cx);
            append(&mut replies, reply);
        }
        Ok(replies)
    }

    /// Makes one move, and gives its reply. A move that finds no memory says so in its reply, and has changed nothing.
    pub fn make(&mut self, next: Move<M::Type>, cx: &mut Context<'_>) -> Reply<M::Type, M::Error>
        ensures made { (passed : List (Pool M.Type M.Creating M.Recycling A.State F A))
            × MakesMove (may M.Manager F.SyncHook A.AsyncHook self.old.manager)
            self.old.pool next passed result × (self.new.pool ≡ last_of self.old.pool passed) }
        ensures manager { self.new.manager ≡ self.old.manager }
        ensures kept { Keeps cx.old cx.new }
    {
        match next {
            Move::Start(timeouts) => self.start(timeouts),
            Move::Advance(party, now) => self.advance(party, now, cx),
            Move::Poll(party, now) => self.poll(party, now, cx),
            Move::Cancel(party) => self.cancel(party),
            Move::Put(number, value) => self.put(number, value),
            Move::Back(number) => self.back(number),
            Move::Take(number) => self.take(number),
            Move::Retain(kept) => self.retain(&kept),
            Move::Resize(limit) => self.make_for_owner(&OwnerStep::Resize { limit }),
            Move::Close => self.make_for_owner(&OwnerStep::Close),
            Move::Status => self.make_for_owner(&OwnerStep::Status),
            Move::Clone => self.make_for_owner(&OwnerStep::CloneHandle),
            Move::DropHandle => self.make_for_owner(&OwnerStep::DropHandle),
            Move::Upgrade => self.make_for_owner(&OwnerStep::Upgrade),
        }
    }
}
