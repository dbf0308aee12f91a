//! Why a call was refused. Each error's text is the `output` of its `Display`.
use std::alloc::AllocError;
use std::borrow::CowStr;
use std::{fmt, io};

/// Why a pool was not made.
#[derive(Clone, Copy, Debug, PartialEq, Eq)]
pub enum BuildError {
    /// There is a timeout, if only one of zero, and no runtime to serve it.
    NoRuntimeSpecified,
    /// The pool's tables found no memory.
    OutOfMemory,
}

impl BuildError {
    ghost use Rattle.std.specs.Prelude.{◌≡◌};
    ghost use Rattle.deadpool_parts.specs.Texts.{build_error_text};

    // What its `Display` writes.
    fn text(self) -> &'static str
        ensures { result.now ≡ build_error_text self }
    {
        match self {
            BuildError::NoRuntimeSpecified => {
                "Error occurred while building the pool: Timeouts require a runtime"
            }
            BuildError::OutOfMemory => "Error occurred while building the pool: Out of memory",
        }
    }
}

impl fmt::Display for BuildError {
    ghost use Rattle.std.specs.Prelude.{Some};
    ghost use Rattle.deadpool_parts.specs.Texts.{build_error_text};

    ghost output = { λ error. Some (build_error_text error) };

    fn fmt<W: fmt::Write>(&self, f: &mut fmt::Formatter<W>) -> fmt::Result {
        f.write_str(self.text())
    }
}

/// An error of the input, or of memory, with the same text.
impl From<BuildError> for io::Error {
    ghost use Rattle.std.specs.Prelude.{◌≡◌};
    ghost use Rattle.std.specs.IoError.{error_kind};
    ghost use Rattle.deadpool_parts.specs.Texts.{build_error_kind};

    ghost from_gives = { λ error given. error_kind given ≡ build_error_kind error };

    fn from(error: BuildError) -> io::Error {
        let kind = match error {
            BuildError::NoRuntimeSpecified => io::ErrorKind::InvalidInput,
            BuildError::OutOfMemory => io::ErrorKind::OutOfMemory,
        };
        io::Error::new(kind, error.text())
    }
}

impl From<AllocError> for BuildError {
    ghost use Rattle.std.specs.Prelude.{◌≡◌};
    ghost use Rattle.deadpool_parts.specs.declared.errors.BuildError.TheVariants.{OutOfMemory};

    ghost from_gives = { λ _ error. error ≡ OutOfMemory };

    fn from(_refused: AllocError) -> BuildError {
        BuildError::OutOfMemory
    }
}

/// Why an object was not recycled.
#[derive(Debug, Drop)]
pub enum RecycleError<E> {
    /// What the manager says of it.
    Message(CowStr<'static>),
    /// What the backend says of it.
    Backend(E),
}

/// How the recycling of an object ended.
pub type RecycleResult<E> = Result<(), RecycleError<E>>;

impl<E> RecycleError<E> {
    ghost use Rattle.std.specs.Prelude.{◌≡◌};
    ghost use Rattle.std.specs.declared.borrow.CowStr.TheVariants.{Borrowed};

    /// A refusal with this text, which is borrowed.
    pub fn message(text: &'static str) -> Self
        ensures { result ≡ RecycleError.Message (Borrowed text.entry) }
    {
        RecycleError::Message(CowStr::Borrowed(text))
    }
}

impl<E: fmt::Display> fmt::Display for RecycleError<E> {
    ghost use Rattle.deadpool_parts.specs.Texts.{recycle_error_text};

    ghost output = { recycle_error_text E.output };

    fn fmt<W: fmt::Write>(&self, f: &mut fmt::Formatter<W>) -> fmt::Result {
        match self {
            RecycleError::Message(text) => {
                write!(f, "Error occurred while recycling an object: {text}")
            }
            RecycleError::Backend(cause) => {
                write!(f, "Error occurred while recycling an object: {cause}")
            }
        }
    }
}

impl<E> From<E> for RecycleError<E> {
    ghost use Rattle.std.specs.Prelude.{◌≡◌};
    ghost use Rattle.deadpool_parts.specs.declared.errors.RecycleError.TheVariants.{Backend};

    ghost from_gives = { λ cause error. error ≡ Backend cause };

    fn from(cause: E) -> RecycleError<E> {
        RecycleError::Backend(cause)
    }
}

/// Why a hook refused an object.
#[derive(Debug, Drop)]
pub enum HookError<E> {
    /// What the hook says of it.
    Message(CowStr<'static>),
    /// What the backend says of it.
    Backend(E),
}

/// How a hook ended.
pub type HookResult<E> = Result<(), HookError<E>>;

impl<E> HookError<E> {
    ghost use Rattle.std.specs.Prelude.{◌≡◌};
    ghost use Rattle.std.specs.declared.borrow.CowStr.TheVariants.{Borrowed};

    /// A refusal with this text, which is borrowed.
    pub fn message(text: &'static str) -> Self
        ensures { result ≡ HookError.Message (Borrowed text.entry) }
    {
        HookError::Message(CowStr::Borrowed(text))
    }
}

impl<E: fmt::Display> fmt::Display for HookError<E> {
    ghost use Rattle.deadpool_parts.specs.Texts.{hook_error_text};

    ghost output = { hook_error_text E.output };

    fn fmt<W: fmt::Write>(&self, f: &mut fmt::Formatter<W>) -> fmt::Result {
        match self {
            HookError::Message(text) => write!(f, "{text}"),
            HookError::Backend(cause) => write!(f, "{cause}"),
        }
    }
}

/// The phase of a get that ran out of time.
#[derive(Clone, Copy, Debug, PartialEq, Eq)]
pub enum TimeoutType {
    /// The wait for a place.
    Wait,
    /// The creation of an object.
    Create,
    /// The recycling of an idle object.
    Recycle,
}

/// Why a get ended without an object. It then holds neither a place nor an object.
#[derive(Debug, Drop)]
pub enum PoolError<E> {
    /// The phase ran out of time.
    Timeout(TimeoutType),
    /// The manager refused to create an object.
    Backend(E),
    /// The pool was closed.
    Closed,
    /// A timeout that the get needs is set, and no runtime is there to serve it.
    NoRuntimeSpecified,
    /// A hook refused the new object.
    PostCreateHook(HookError<E>),
    /// No place was free, and as many gets waited as may.
    Crowded,
    /// The get's entry in the queue found no memory, or the handle that a future of a shared pool counts as.
    OutOfMemory,
    /// No object number is left.
    NumbersExhausted,
}

/// The text of a refused hook is the only one that ends a line.
impl<E: fmt::Display> fmt::Display for PoolError<E> {
    ghost use Rattle.deadpool_parts.specs.Texts.{pool_error_text};

    ghost output = { pool_error_text E.output };

    fn fmt<W: fmt::Write>(&self, f: &mut fmt::Formatter<W>) -> fmt::Result {
        match self {
            PoolError::Timeout(TimeoutType::Wait) => {
                f.write_str("Timeout occurred while waiting for a slot to become available")
            }
            PoolError::Timeout(TimeoutType::Create) => {
                f.write_str("Timeout occurred while creating a new object")
            }
            PoolError::Timeout(TimeoutType::Recycle) => {
                f.write_str("Timeout occurred while recycling an object")
            }
            PoolError::Backend(cause) => {
                write!(f, "Error occurred while creating a new object: {cause}")
            }
            PoolError::Closed => f.write_str("Pool has been closed"),
            PoolError::NoRuntimeSpecified => f.write_str("No runtime specified"),
            PoolError::PostCreateHook(cause) => writeln!(f, "`post_create` hook failed: {cause}"),
            PoolError::Crowded => f.write_str("Too many gets wait for a slot"),
            PoolError::OutOfMemory => f.write_str("Out of memory"),
            PoolError::NumbersExhausted => f.write_str("Object numbers are exhausted"),
        }
    }
}

impl<E> From<E> for PoolError<E> {
    ghost use Rattle.std.specs.Prelude.{◌≡◌};
    ghost use Rattle.deadpool_parts.specs.declared.errors.PoolError.TheVariants.{Backend};

    ghost from_gives = { λ cause error. error ≡ Backend cause };

    fn from(cause: E) -> PoolError<E> {
        PoolError::Backend(cause)
    }
}

/// Why a value is no configuration, or a configuration gave no value.
#[derive(Clone, Copy, Debug, PartialEq, Eq)]
pub enum ConfigError {
    /// The value, or its `timeouts`, is not an object.
    NotAnObject,
    /// There is no `max_size`.
    MissingMaxSize,
    /// `max_size` is not a whole number, or does not fit a `usize`.
    BadNumber,
    /// A timeout is neither null nor a duration.
    BadDuration,
    /// `queue_mode` is another value than the two modes' names.
    BadQueueMode,
    /// `min_idle` is not a whole number, or does not fit a `usize`.
    BadMinIdle,
    /// `max_waiting` is neither null nor a whole number that fits a `usize`.
    BadMaxWaiting,
    /// The value found no memory. Reading never gives this.
    OutOfMemory,
}

impl fmt::Display for ConfigError {
    ghost use Rattle.std.specs.Prelude.{Some};
    ghost use Rattle.deadpool_parts.specs.Texts.{config_error_text};

    ghost output = { λ error. Some (config_error_text error) };

    fn fmt<W: fmt::Write>(&self, f: &mut fmt::Formatter<W>) -> fmt::Result {
        match self {
            ConfigError::NotAnObject => f.write_str("Configuration is not an object"),
            ConfigError::MissingMaxSize => f.write_str("max_size is missing"),
            ConfigError::BadNumber => f.write_str("max_size is not a whole number in range"),
            ConfigError::BadDuration => f.write_str("A timeout is not a duration"),
            ConfigError::BadQueueMode => f.write_str("queue_mode is not Fifo or Lifo"),
            ConfigError::BadMinIdle => f.write_str("min_idle is not a whole number in range"),
            ConfigError::BadMaxWaiting => {
                f.write_str("max_waiting is not a whole number in range")
            }
            ConfigError::OutOfMemory => f.write_str("Out of memory"),
        }
    }
}

impl From<AllocError> for ConfigError {
    ghost use Rattle.std.specs.Prelude.{◌≡◌};
    ghost use Rattle.deadpool_parts.specs.declared.errors.ConfigError.TheVariants.{OutOfMemory};

    ghost from_gives = { λ _ error. error ≡ OutOfMemory };

    fn from(_refused: AllocError) -> ConfigError {
        ConfigError::OutOfMemory
    }
}

/// Why a backend made no pool of its own configuration, whose errors are `C`.
#[derive(Debug, Drop)]
pub enum CreatePoolError<C> {
    /// The configuration gave no builder.
    Config(C),
    /// The builder gave no pool.
    Build(BuildError),
}

impl<C: fmt::Display> fmt::Display for CreatePoolError<C> {
    ghost use Rattle.deadpool_parts.specs.Texts.{create_pool_error_text};

    ghost output = { create_pool_error_text C.output };

    fn fmt<W: fmt::Write>(&self, f: &mut fmt::Formatter<W>) -> fmt::Result {
        match self {
            CreatePoolError::Config(cause) => write!(f, "Config: {cause}"),
            CreatePoolError::Build(cause) => write!(f, "Build: {cause}"),
        }
    }
}
