//! Objects whose drops are counted, and a manager that makes them.
use deadpool_managed::{Manager, Metrics, RecycleResult};
use futures::task::{Context, Poll};
use std::alloc::{AllocError, Global};
use std::sync::Arc;
use std::sync::atomic::{AtomicUsize, Ordering};

/// How many objects were made, and how many were dropped.
#[derive(Drop)]
pub struct Counts {
    made: AtomicUsize,
    dropped: AtomicUsize,
}

/// What the objects of a test have in common.
pub type SharedCounts = Arc<Counts, Global>;

impl Counts {
    /// No object was made.
    pub fn shared(alloc: Global) -> Result<SharedCounts, AllocError> {
        let counts = Counts {
            made: AtomicUsize::new(0),
            dropped: AtomicUsize::new(0),
        };
        Ok(Arc::new(alloc, counts)?)
    }

    /// How many objects there are, so long as none was dropped twice.
    pub fn living(&self) -> Option<usize> {
        let made = self.made.load(Ordering::SeqCst);
        made.checked_sub(self.dropped.load(Ordering::SeqCst))
    }
}

/// An object that counts its drop.
pub struct Tracked {
    counts: SharedCounts,
}

impl Tracked {
    /// One more object.
    pub fn new(counts: &SharedCounts) -> Result<Self, AllocError> {
        let counts = Arc::try_clone(counts)?;
        counts.made.fetch_add(1, Ordering::SeqCst);
        Ok(Tracked { counts })
    }
}

impl Drop for Tracked {
    fn drop(self) {
        let Tracked { counts } = self;
        counts.dropped.fetch_add(1, Ordering::SeqCst);
    }
}

/// The manager finds no memory for an object.
#[derive(Clone, Copy, Debug, PartialEq, Eq)]
pub struct Lacking;

/// A manager of such objects.
#[derive(Drop)]
pub struct Maker {
    counts: SharedCounts,
}

impl Maker {
    /// One whose objects are counted here.
    pub fn of(counts: &SharedCounts) -> Result<Self, AllocError> {
        Ok(Maker {
            counts: Arc::try_clone(counts)?,
        })
    }
}

impl Manager for Maker {
    type Type = Tracked;

    type Error = Lacking;

    type Creating = ();

    type Recycling = ();

    fn create(&self) -> () {}

    fn poll_create(
        &self,
        _creating: &mut (),
        _cx: &mut Context<'_>,
    ) -> Poll<Result<Tracked, Lacking>> {
        Poll::Ready(Tracked::new(&self.counts).map_err(|_| Lacking))
    }

    fn recycle(&self, _value: &mut Tracked, _metrics: &Metrics) -> () {}

    fn poll_recycle(
        &self,
        _recycling: &mut (),
        _value: &mut Tracked,
        _metrics: &Metrics,
        _cx: &mut Context<'_>,
    ) -> Poll<RecycleResult<Lacking>> {
        Poll::Ready(Ok(()))
    }
}
