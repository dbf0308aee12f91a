//! What the shared pools need of a lock: the wakers of those that wait, a lock whose steps tell them, a counted handle
//! of what is shared, those that wait for its end, and what a future hears by. It knows nothing of objects.
#![tactic(auto)]

mod ended;
mod ends;
mod handle;
mod lock;
mod registration;
mod request;
mod step;
mod wakers;

pub use ended::DrainError;
pub use ends::{Departed, Departure, Ends};
pub use handle::{Counted, Handle, Home};
pub use lock::StepLock;
pub use registration::{Registered, Registration, wake_at};
pub use request::{Borrowed, Owned, Request, Stage};
pub use step::{Owed, Step, Wakes};
pub use wakers::Wakers;
