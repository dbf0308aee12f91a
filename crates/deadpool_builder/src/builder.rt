//! What a pool is made of, before it is made.
ghost use Rattle.std.specs.Prelude.{◌≡◌, ◌↔◌, ◌++◌, ◌∷◌, [], true, IfOk, IfErr, IsOkUnless, Option, Err};
ghost use Rattle.std.specs.declared.time.Duration.{Duration};
ghost use Rattle.deadpool_parts.specs.declared.errors.BuildError.TheVariants.{NoRuntimeSpecified};
ghost use Rattle.deadpool_desk.specs.CoreState.{HasRoom};
ghost use Rattle.deadpool_desk.specs.DeskState.{bounded, new_core};
ghost use Rattle.deadpool_managed.specs.HookLists.{CanCall};
ghost use Rattle.deadpool_builder.specs.Building.{Building, lacks_any_runtime, newly};

use deadpool_managed::{
    AsyncHook, BuildError, Core, Environment, Hook, Hooks, Kept, Manager, PoolConfig, QueueMode,
    Runtime, SyncHook, Timeouts,
};
use std::alloc::Global;
use std::marker::Model;
use std::time::Duration;

/// What a pool is made of, as its builder gives it to whoever makes it.
#[derive(Drop)]
pub struct PoolParts<M: Manager, F: SyncHook<M>, A: AsyncHook<M>, C: Drop> {
    /// What the pool lends to its gets.
    pub environment: Environment<M, F, A>,
    pub clock: C,
    /// The greatest number of objects.
    pub max_size: usize,
    /// Those of a get that is started without its own.
    pub timeouts: Timeouts,
    pub queue_mode: QueueMode,
    /// How many objects a shrink and a retain leave idle, if as many are.
    pub min_idle: usize,
    /// How many gets may wait for a place, if that is bounded.
    pub max_waiting: Option<usize>,
    /// Whether the queue is to have room for all of them from the beginning.
    pub room_for_waiting: bool,
    /// How many entries the journal may have.
    pub journal: usize,
    pub alloc: Global,
}

/// A pool on one thread as its builder opens it: its state, what it lends to its gets, and what it keeps for them.
#[derive(Drop)]
pub struct OpenPool<M: Manager, F: SyncHook<M>, A: AsyncHook<M>, C: Drop> {
    pub core: Core<Kept<M::Type>>,
    pub environment: Environment<M, F, A>,
    /// Those of a get that is started without its own.
    pub timeouts: Timeouts,
    pub clock: C,
    pub alloc: Global,
}

/// What a pool is made of: its manager, its hooks, a clock, and how it is configured.
#[derive(Drop)]
pub struct PoolBuilder<M: Manager, F: SyncHook<M>, A: AsyncHook<M>, C: Drop> {
    alloc: Global,
    manager: M,
    hooks: Hooks<M, F, A>,
    clock: C,
    max_size: usize,
    timeouts: Timeouts,
    queue_mode: QueueMode,
    min_idle: usize,
    max_waiting: Option<usize>,
    room_for_waiting: bool,
    runtime: Option<Runtime>,
    journal: usize,
}

impl<M: Manager, F: SyncHook<M>, A: AsyncHook<M>, C: Drop> Model for PoolBuilder<M, F, A, C> {
    ghost use Rattle.deadpool_builder.specs.Building.{Building};

    ghost Value = { Building M F A C };

    ghost view = { λ b. record {
      manager = b.manager;
      hooks = b.hooks;
      clock = b.clock;
      max_size = b.max_size;
      timeouts = b.timeouts;
      queue_mode = b.queue_mode;
      min_idle = b.min_idle;
      max_waiting = b.max_waiting;
      room_for_waiting = b.room_for_waiting;
      runtime = b.runtime;
      journal = b.journal;
    } };
}

impl<M: Manager, F: SyncHook<M>, A: AsyncHook<M>, C: Drop> PoolBuilder<M, F, A, C> {
    /// A pool of at most two objects, first in first out, with no hook, no timeout, no runtime, no object that has to
    /// stay idle, no bound on the gets that wait, and no room in its journal. The machine is not asked how many
    /// processors it has.
    pub fn new(alloc: Global, manager: M, clock: C) -> Self
        ensures { result ≡ newly manager clock }
    {
        PoolBuilder {
            alloc,
            manager,
            hooks: Hooks::new(alloc),
            clock,
            max_size: 2,
            timeouts: Timeouts::new(),
            queue_mode: QueueMode::Fifo,
            min_idle: 0,
            max_waiting: None,
            room_for_waiting: false,
            runtime: None,
            journal: 0,
        }
    }

    // Whether a timeout is set that nothing is there to serve.
    fn lacks_runtime(&self) -> bool
        ensures { result ≡ lacks_any_runtime self.now.runtime self.now.timeouts }
    {
        let Timeouts {
            wait,
            create,
            recycle,
        } = self.timeouts;
        let is_timed = wait.is_some() || create.is_some() || recycle.is_some();
        is_timed && self.runtime.is_none()
    }

    /// Gives up all that a pool is made of. A timeout that is set, zero included, needs a runtime. If there is none,
    /// the builder is dropped with all that it has.
    pub fn into_parts(self) -> Result<PoolParts<M, F, A, C>, BuildError>
        ensures refused { (result ≡ Err NoRuntimeSpecified)
            ↔ (lacks_any_runtime self.runtime self.timeouts ≡ true) }
        ensures ok { IsOkUnless result NoRuntimeSpecified }
        ensures environment { IfOk result (λ parts. parts.environment
            ≡ record { manager = self.manager; hooks = self.hooks; runtime = self.runtime }) }
        ensures clock { IfOk result (λ parts. parts.clock ≡ self.clock) }
        ensures size { IfOk result (λ parts. parts.max_size ≡ self.max_size) }
        ensures timeouts { IfOk result (λ parts. parts.timeouts ≡ self.timeouts) }
        ensures mode { IfOk result (λ parts. parts.queue_mode ≡ self.queue_mode) }
        ensures min_idle { IfOk result (λ parts. parts.min_idle ≡ self.min_idle) }
        ensures bound { IfOk result (λ parts. parts.max_waiting ≡ self.max_waiting) }
        ensures room { IfOk result (λ parts. parts.room_for_waiting ≡ self.room_for_waiting) }
        ensures journal { IfOk result (λ parts. parts.journal ≡ self.journal) }
    {
        if self.lacks_runtime() {
            return Err(BuildError::NoRuntimeSpecified);
        }
        let PoolBuilder {
            alloc,
            manager,
            hooks,
            clock,
            max_size,
            timeouts,
            queue_mode,
            min_idle,
            max_waiting,
            room_for_waiting,
            runtime,
            journal,
        } = self;
        Ok(PoolParts {
            environment: Environment {
                manager,
                hooks,
                runtime,
            },
            clock,
            max_size,
            timeouts,
            queue_mode,
            min_idle,
            max_waiting,
            room_for_waiting,
            journal,
            alloc,
        })
    }

    /// Opens the pool on one thread, with one handle; its first object gets this number. A timeout that is set, zero
    /// included, needs a runtime. Where the pool is not opened, the builder is dropped with all that it has.
    pub fn open(self, first_number: usize) -> Result<OpenPool<M, F, A, C>, BuildError>
        ensures refused { (result ≡ Err NoRuntimeSpecified)
            ↔ (lacks_any_runtime self.runtime self.timeouts ≡ true) }
        ensures core { IfOk result (λ pool. pool.core.desk
            ≡ bounded self.max_waiting (new_core self.max_size self.queue_mode first_number self.min_idle)) }
        ensures unnotified { IfOk result (λ pool. pool.core.unnotified ≡ []) }
        ensures room { IfOk result (λ pool. self.room_for_waiting ≡ true → HasRoom pool.core) }
        ensures environment { IfOk result (λ pool. pool.environment
            ≡ record { manager = self.manager; hooks = self.hooks; runtime = self.runtime }) }
        ensures timeouts { IfOk result (λ pool. pool.timeouts ≡ self.timeouts) }
        ensures clock { IfOk result (λ pool. pool.clock ≡ self.clock) }
    {
        let PoolParts {
            environment,
            clock,
            max_size,
            timeouts,
            queue_mode,
            min_idle,
            max_waiting,
            room_for_waiting,
            journal: _,
            alloc,
        } = self.into_parts()?;
        let core = Core::new(alloc, max_size, queue_mode, first_number, min_idle)?;
        let mut core = core.bounded(max_waiting);
        if room_for_waiting {
            core.make_room_for_waiting()?;
        }
        Ok(OpenPool {
            core,
            environment,
            timeouts,
            clock,
            alloc,
        })
    }

    /// Takes over a whole configuration.
    pub fn config(mut self, config: PoolConfig) -> Self
        ensures { result ≡ record self {
          max_size = config.max_size;
          timeouts = config.timeouts;
          queue_mode = config.queue_mode;
          min_idle = config.min_idle;
          max_waiting = config.max_waiting;
        } }
    {
        self.max_size = config.max_size;
        self.timeouts = config.timeouts;
        self.queue_mode = config.queue_mode;
        self.min_idle = config.min_idle;
        self.max_waiting = config.max_waiting;
        self
    }

    /// The greatest number of objects.
    pub fn max_size(mut self, max_size: usize) -> Self
        ensures { result ≡ record self { max_size = max_size } }
    {
        self.max_size = max_size;
        self
    }

    /// How long each phase of a get may last.
    pub fn timeouts(mut self, timeouts: Timeouts) -> Self
        ensures { result ≡ record self { timeouts = timeouts } }
    {
        self.timeouts = timeouts;
        self
    }

    /// How long a get may wait for a place.
    pub fn wait_timeout(mut self, timeout: Option<Duration>) -> Self
        ensures { result ≡ record self { timeouts = record self.timeouts { wait = timeout } } }
    {
        self.timeouts.wait = timeout;
        self
    }

    /// How long the creation of an object may last.
    pub fn create_timeout(mut self, timeout: Option<Duration>) -> Self
        ensures { result ≡ record self { timeouts = record self.timeouts { create = timeout } } }
    {
        self.timeouts.create = timeout;
        self
    }

    /// How long the recycling of an object may last.
    pub fn recycle_timeout(mut self, timeout: Option<Duration>) -> Self
        ensures { result ≡ record self { timeouts = record self.timeouts { recycle = timeout } } }
    {
        self.timeouts.recycle = timeout;
        self
    }

    /// Which idle object is handed out first.
    pub fn queue_mode(mut self, queue_mode: QueueMode) -> Self
        ensures { result ≡ record self { queue_mode = queue_mode } }
    {
        self.queue_mode = queue_mode;
        self
    }

    /// How many objects a shrink and a retain leave idle, if as many are and the limit allows. It may be above the
    /// greatest number of objects.
    pub fn min_idle(mut self, min_idle: usize) -> Self
        ensures { result ≡ record self { min_idle = min_idle } }
    {
        self.min_idle = min_idle;
        self
    }

    /// How many gets may wait for a place, or no bound. One more is refused at once, with `PoolError::Crowded`.
    pub fn max_waiting(mut self, max_waiting: Option<usize>) -> Self
        ensures { result ≡ record self { max_waiting = max_waiting } }
    {
        self.max_waiting = max_waiting;
        self
    }

    /// The queue gets room for all gets that `max_waiting` lets wait, and for all that may be granted a place, when the
    /// pool is opened. From then on no get is refused for want of memory for its place in the queue, unless the limit
    /// is raised above the greatest number of objects. A pool is not opened if there is no memory for that much, or
    /// if nothing bounds the gets that wait. Memory for the waker of a get's task is another matter.
    pub fn room_for_waiting(mut self) -> Self
        ensures { result ≡ record self { room_for_waiting = true } }
    {
        self.room_for_waiting = true;
        self
    }

    /// What serves the timeouts.
    pub fn runtime(mut self, runtime: Runtime) -> Self
        ensures { result ≡ record self { runtime = Option.Some runtime } }
    {
        self.runtime = Some(runtime);
        self
    }

    /// How many entries the journal of a pool for threads and tasks may have. A pool on one thread keeps none.
    pub fn journal(mut self, most_entries: usize) -> Self
        ensures { result ≡ record self { journal = most_entries } }
    {
        self.journal = most_entries;
        self
    }

    /// Adds a hook that sees new objects. Where it finds no memory, it comes back, and the builder is as before.
    pub fn post_create(mut self, hook: Hook<F, A>) -> Result<Self, (Self, Hook<F, A>)>
        requires { CanCall F.can_call hook }
        ensures ok { IfOk result (λ b. b ≡ record self {
          hooks = record self.hooks { post_create = self.hooks.post_create ++ hook ∷ [] };
        }) }
        ensures err { IfErr result (λ back. (back.0 ≡ self) × (back.1 ≡ hook)) }
    {
        match self.hooks.add_post_create(hook) {
            Ok(()) => Ok(self),
            Err(hook) => Err((self, hook)),
        }
    }

    /// Adds a hook that sees idle objects before they are recycled. Where it finds no memory, it comes back, and the
    /// builder is as before.
    pub fn pre_recycle(mut self, hook: Hook<F, A>) -> Result<Self, (Self, Hook<F, A>)>
        requires { CanCall F.can_call hook }
        ensures ok { IfOk result (λ b. b ≡ record self {
          hooks = record self.hooks { pre_recycle = self.hooks.pre_recycle ++ hook ∷ [] };
        }) }
        ensures err { IfErr result (λ back. (back.0 ≡ self) × (back.1 ≡ hook)) }
    {
        match self.hooks.add_pre_recycle(hook) {
            Ok(()) => Ok(self),
            Err(hook) => Err((self, hook)),
        }
    }

    /// Adds a hook that sees idle objects after they were recycled. Where it finds no memory, it comes back, and the
    /// builder is as before.
    pub fn post_recycle(mut self, hook: Hook<F, A>) -> Result<Self, (Self, Hook<F, A>)>
        requires { CanCall F.can_call hook }
        ensures ok { IfOk result (λ b. b ≡ record self {
          hooks = record self.hooks { post_recycle = self.hooks.post_recycle ++ hook ∷ [] };
        }) }
        ensures err { IfErr result (λ back. (back.0 ≡ self) × (back.1 ≡ hook)) }
    {
        match self.hooks.add_post_recycle(hook) {
            Ok(()) => Ok(self),
            Err(hook) => Err((self, hook)),
        }
    }
}
