//! A list of entries with room for so many.
//!
//! Each get through a handle of its own enters, comes back, and counts a handle twice. So for these the mark is looked
//! at first: once it is set no entry is made.
ghost use Rattle.std.specs.Prelude.{◌≡◌, ◌≤◌, IfOk, Option, length, nat_lt, true, option_copied, slice_get};
ghost use Rattle.std.specs.Option.{option_or};
ghost use Rattle.deadpool_journal.specs.ByNumber.{number_in};
ghost use Rattle.deadpool_journal.specs.LogState.{no_entries, noted};
ghost use Rattle.deadpool_journal.specs.declared.entry.Entry.TheVariants as entry;

use crate::Entry;
use deadpool_desk::{OwnerReply, OwnerStep, Reply, Slot, Step};
use deadpool_parts::tables::append;
use std::alloc::{AllocError, Global};
use std::marker::Model;

/// At most so many entries, and a mark that a further one found no room. The room for all of them is there from the
/// start.
#[derive(Drop)]
pub(crate) struct Log {
    entries: Vec<Entry>,
    most: usize,
    is_full: bool,
}

impl Model for Log {
    ghost use Rattle.deadpool_journal.specs.LogState.{LogState};

    ghost Value = { LogState };

    ghost use Rattle.deadpool_journal.specs.LogFields.{log_of, LogInvariant};

    ghost view = { log_of };

    ghost invariant = { LogInvariant };
}

impl Log {
    /// No entry, and room for so many.
    pub fn new(alloc: Global, most: usize) -> Result<Log, AllocError>
        ensures { IfOk result (λ log. log ≡ no_entries most) }
    {
        let entries = Vec::with_capacity(alloc, most)?;
        Ok(Log {
            entries,
            most,
            is_full: false,
        })
    }

    /// One entry more, or the mark if there is no room.
    pub fn add(&mut self, entry: Entry)
        ensures { self.new ≡ noted entry self.old }
    {
        if self.is_full {
            return;
        }
        self.note(entry);
    }

    #[cold]
    #[inline(never)]
    fn note(&mut self, entry: Entry)
        ensures { self.new ≡ noted entry self.old }
    {
        if self.is_full {
            return;
        }
        if self.entries.len() == self.most {
            self.is_full = true;
            return;
        }
        append(&mut self.entries, entry);
    }

    /// One entry more, of a step, with the number of the object that it took, or of what is in the hand after it. The
    /// step and the reply are copied only if the mark is not set, so that neither has to lie in memory otherwise.
    #[inline(always)]
    pub fn add_step<T>(
        &mut self,
        step: &Step,
        taken: Option<usize>,
        hand: &Option<Slot<T>>,
        reply: &Reply,
    )
        ensures { self.new
            ≡ noted (entry.Made step.now (option_or taken (number_in hand.now)) reply.now) self.old }
    {
        if self.is_full {
            return;
        }
        let number = taken.or(number_in(hand));
        self.note(Entry::Made(*step, number, *reply));
    }

    /// One entry more, of a step of the owner. Nothing is made of it if the mark is set.
    #[inline(always)]
    pub fn add_owner_step(&mut self, step: &OwnerStep, reply: &OwnerReply)
        ensures { self.new ≡ noted (entry.Owner step.now reply.now) self.old }
    {
        if self.is_full {
            return;
        }
        self.note(Entry::Owner(*step, *reply));
    }

    /// Whether there is room for one entry more.
    pub fn has_room(&self) -> bool
        ensures { result ≡ nat_lt (length self.now.entries) self.now.most }
    {
        self.entries.len() < self.most
    }

    /// Sets the mark. There has to be no room.
    pub fn mark_full(&mut self)
        requires { self.old.most ≤ length self.old.entries }
        ensures { self.new ≡ record self.old { is_full = true } }
    {
        self.is_full = true;
    }

    /// A copy of the entries.
    pub fn entries(&self) -> Result<Vec<Entry>, AllocError>
        ensures { IfOk result (λ entries. entries.items ≡ self.now.entries) }
    {
        let mut copies = Vec::with_capacity(*self.entries.allocator(), self.entries.len())?;
        for entry in &self.entries {
            append(&mut copies, entry.copied()?);
        }
        Ok(copies)
    }

    /// The entry at this position.
    pub fn entry(&self, at: usize) -> Option<&Entry>
        ensures { option_copied result ≡ slice_get self.now.entries at }
    {
        self.entries.get(at)
    }

    /// Whether an entry has found no room.
    pub fn is_full(&self) -> bool
        ensures { result ≡ self.now.is_full }
    {
        self.is_full
    }
}

/// The number of the object in a hand.
pub(crate) fn number_in<T>(hand: &Option<Slot<T>>) -> Option<usize>
    ensures { result ≡ number_in hand.now }
{
    match hand {
        Some(slot) => Some(slot.number),
        None => None,
    }
}
