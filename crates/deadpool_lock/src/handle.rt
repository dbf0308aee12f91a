//! A counted handle of what is shared.
ghost use Rattle.std.specs.Prelude.{◌≡◌, ℕ, ⊤, IfOk};

use futures::task::Source;
use std::alloc::{AllocError, Global};
use std::marker::Model;
use std::sync::Arc;

/// What counts its handles, and what each that waits for it is woken by.
pub trait Counted {
    // The name of that source.
    ghost source_of: { Self → ℕ };

    // What counting one handle more does to it, and one less.
    ghost counts: { Self → Type 0 } = { λ _. ⊤ };

    ghost uncounts: { Self → Type 0 } = { λ _. ⊤ };

    /// What each that waits registers with.
    fn source(&self) -> &Source
        ensures { result.now.id ≡ source_of self.now };

    /// There is one handle more.
    fn clone_handle(&self)
        ensures { counts self.now };

    /// There is one handle less.
    fn drop_handle(&self)
        ensures { uncounts self.now };
}

/// One owner of what is shared, which counts for no handle. Contracts see what is shared.
#[derive(Drop)]
pub struct Home<S: Drop> {
    // In a box, so that an owner that lets go moves no more than a pointer.
    shared: Arc<Box<S, Global>, Global>,
}

impl<S: Drop> Model for Home<S> {
    ghost use Rattle.std.specs.Arc.{arc_value};

    ghost Value = { S };

    ghost view = { λ h. (arc_value h.shared).value };
}

impl<S: Drop> Home<S> {
    /// The first owner.
    pub fn new(alloc: Global, shared: S) -> Result<Self, AllocError>
        ensures { IfOk result (λ home. home ≡ shared) }
    {
        let shared = Box::new(alloc, shared)?;
        Ok(Home {
            shared: Arc::new(alloc, shared)?,
        })
    }

    /// One owner more.
    pub fn clone(&self) -> Result<Self, AllocError>
        ensures { IfOk result (λ home. home ≡ self.now) }
    {
        Ok(Home {
            shared: Arc::try_clone(&self.shared)?,
        })
    }

    /// What is shared.
    pub fn shared(&self) -> &S
        ensures { result.now ≡ self.now }
    {
        &self.shared
    }
}

/// A counted handle of what is shared. Dropping it gives it back, before it lets go of what is shared. Contracts see
/// what is shared.
pub struct Handle<S: Counted + Drop> {
    home: Home<S>,
}

impl<S: Counted + Drop> Model for Handle<S> {
    ghost Value = { S };

    ghost view = { λ h. h.home };
}

impl<S: Counted + Drop> Handle<S> {
    /// The first handle, which was counted when what is shared was made.
    pub fn new(alloc: Global, shared: S) -> Result<Self, AllocError>
        ensures { IfOk result (λ handle. handle ≡ shared) }
    {
        Ok(Handle {
            home: Home::new(alloc, shared)?,
        })
    }

    /// A handle that its maker has counted already, in a step of its own.
    pub fn counted(home: Home<S>) -> Self
        ensures { result ≡ home }
    {
        Handle { home }
    }

    /// One handle more. If there is no memory for it, none was counted.
    pub fn clone(&self) -> Result<Self, AllocError>
        ensures handle { IfOk result (λ handle. handle ≡ self.now) }
        ensures counted { IfOk result (λ _. S.counts self.now) }
    {
        let home = self.home.clone()?;
        home.shared().clone_handle();
        Ok(Handle { home })
    }

    /// What is shared.
    pub fn shared(&self) -> &S
        ensures { result.now ≡ self.now }
    {
        self.home.shared()
    }

    /// What is shared, for one that counts for no handle.
    pub fn uncounted(&self) -> Result<Home<S>, AllocError>
        ensures { IfOk result (λ home. home ≡ self.now) }
    {
        self.home.clone()
    }
}

impl<S: Counted + Drop> Drop for Handle<S> {
    fn drop(self)
        ensures { S.uncounts self }
    {
        let Self { home } = self;
        home.shared().drop_handle();
    }
}
