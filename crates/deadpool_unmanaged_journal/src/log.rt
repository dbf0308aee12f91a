//! The entries of a journal.
ghost use Rattle.std.specs.Prelude.{◌≡◌, IfOk, false, option_copied, slice_get};
ghost use Rattle.deadpool_unmanaged_journal.specs.LogState.{no_entries, noted};
ghost use Rattle.deadpool_unmanaged_journal.specs.declared.entry.Entry.TheVariants as entry;

use crate::{Entry, OwnerReply, OwnerStep};
use deadpool_parts::tables::append;
use deadpool_unmanaged::{Reply, Step};
use std::alloc::{AllocError, Global};
use std::marker::Model;

/// At most so many entries, and a mark that a further one found no room. The room for all of them is there from the
/// start.
#[derive(Drop)]
pub(crate) struct Log<O: Copy + Drop> {
    entries: Vec<Entry<O>>,
    most: usize,
    is_full: bool,
}

impl<O: Copy + Drop> Model for Log<O> {
    ghost use Rattle.deadpool_unmanaged_journal.specs.LogState.{LogState};

    ghost Value = { LogState O };

    ghost use Rattle.deadpool_unmanaged_journal.specs.LogFields.{log_of, LogInvariant};

    ghost view = { log_of };

    ghost invariant = { LogInvariant };
}

impl<O: Copy + Drop> Log<O> {
    /// No entry, and room for so many.
    pub fn new(alloc: Global, most: usize) -> Result<Log<O>, AllocError>
        ensures { IfOk result (λ log. log ≡ no_entries most) }
    {
        let entries = Vec::with_capacity(alloc, most)?;
        Ok(Log {
            entries,
            most,
            is_full: false,
        })
    }

    /// One entry more, of a step, with the name of its object, or the mark if there is no room. The step and the reply
    /// are copied only if the mark is not set.
    #[inline(always)]
    pub fn add_step(&mut self, step: &Step, object: Option<O>, reply: &Reply)
        ensures { self.new ≡ noted (entry.Made step.now object reply.now) self.old }
    {
        if self.is_full {
            return;
        }
        self.note(Entry::Made(*step, object, *reply));
    }

    /// The same of a step of the owner.
    #[inline(always)]
    pub fn add_owner_step(&mut self, step: &OwnerStep, reply: &OwnerReply)
        ensures { self.new ≡ noted (entry.Owner step.now reply.now) self.old }
    {
        if self.is_full {
            return;
        }
        self.note(Entry::Owner(*step, *reply));
    }

    #[cold]
    #[inline(never)]
    fn note(&mut self, entry: Entry<O>)
        requires { self.old.is_full ≡ false }
        ensures { self.new ≡ noted entry self.old }
    {
        if self.entries.len() == self.most {
            self.is_full = true;
            return;
        }
        append(&mut self.entries, entry);
    }

    /// A copy of the entries.
    pub fn entries(&self) -> Result<Vec<Entry<O>>, AllocError>
        ensures { IfOk result (λ entries. entries.items ≡ self.now.entries) }
    {
        let mut copies = Vec::with_capacity(*self.entries.allocator(), self.entries.len())?;
        for entry in &self.entries {
            append(&mut copies, *entry);
        }
        Ok(copies)
    }

    /// The entry at this position.
    pub fn entry(&self, at: usize) -> Option<&Entry<O>>
        ensures { option_copied result ≡ slice_get self.now.entries at }
    {
        self.entries.get(at)
    }

    /// Whether an entry has found no room.
    pub fn is_full(&self) -> bool
        ensures { result ≡ self.now.is_full }
    {
        self.is_full
    }
}
