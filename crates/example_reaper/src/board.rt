//! What the threads count, and by which they wait for one another.
use std::alloc::{AllocError, Global};
use std::sync::Arc;
use std::sync::atomic::{AtomicUsize, Ordering};
use std::time::{Clock, Duration};
use std::{io, thread};

// How often a thread looks for what another one does, with a pause after each look: twenty seconds in all.
const LOOKS: u32 = 10_000;

// How many milliseconds a pause takes.
const PAUSE: u64 = 2;

/// How often something was done.
#[derive(Drop)]
pub struct Count(AtomicUsize);

impl Count {
    fn none() -> Self {
        Count(AtomicUsize::new(0))
    }

    /// Once more. How often it was done before.
    pub fn add(&self) -> usize {
        self.0.fetch_add(1, Ordering::SeqCst)
    }

    pub fn get(&self) -> usize {
        self.0.load(Ordering::SeqCst)
    }
}

/// What was done so far.
#[derive(Drop)]
pub struct Board {
    /// How many connections were opened, and closed.
    pub opened: Count,
    pub closed: Count,
    /// How many threads were turned away in the rush, and how many have done their requests.
    pub turned_away: Count,
    pub done: Count,
    /// Above 0 once no more is idle than has to be.
    pub rested: Count,
    /// How many threads end with an error: nobody waits for them.
    pub failed: Count,
}

pub type SharedBoard = Arc<Board, Global>;

impl Board {
    /// Nothing was done yet.
    pub fn new(alloc: Global) -> Result<SharedBoard, AllocError> {
        let board = Board {
            opened: Count::none(),
            closed: Count::none(),
            turned_away: Count::none(),
            done: Count::none(),
            rested: Count::none(),
            failed: Count::none(),
        };
        Ok(Arc::new(alloc, board)?)
    }

    /// Waits until it is so, as this thread sees it.
    pub fn wait_until<F: Fn() -> bool>(&self, rt: &impl Clock, is_so: F) -> io::Result<()>
        requires { F.IsAlwaysCallable is_so }
    {
        for _look in 0..LOOKS {
            if is_so() {
                return Ok(());
            }
            if self.failed.get() > 0 {
                return Err(io::Error::other("another thread has failed"));
            }
            thread::sleep(rt, Duration::from_millis(PAUSE));
        }
        Err(io::Error::other("what is waited for does not come"))
    }
}
