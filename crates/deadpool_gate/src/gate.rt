//! The line at a pool: those that found no place, in order of arrival, and what each of them was answered.

ghost use Rattle.std.specs.Prelude.{◌≡◌, ℕ, ◌<◌, ◌≤◌, ◌^◌, ◌*◌, ◌++◌, [], true, false, not, is_some};
ghost use Rattle.std.specs.Prelude.{length, take, drop, IfSome, IfNone, OnOk};
ghost use Rattle.std.specs.Option.{option_map};
ghost use Rattle.deadpool_gate.specs.Gate.{find_waiter, without_waiter, grant_next, grant, granted_count};
ghost use Rattle.deadpool_gate.specs.Gate.{waiting_count, granted_tickets, waiting_tickets, unnotified_tickets};
ghost use Rattle.deadpool_gate.specs.Gate.{grant_count, entry_at_once, Joins, answer_of, asked, withdrawn_as};
ghost use Rattle.deadpool_gate.specs.Gate.{tell_next, due_ticket, RisesAtMost, touched, IsLine};
ghost use Rattle.deadpool_gate.specs.GateLinks.{moved_on, ChangesAt};
ghost use Rattle.deadpool_gate.specs.GateNodes.{changed};
ghost use Rattle.deadpool_gate.specs.Numbers.{has_number};
ghost use Rattle.deadpool_gate.specs.Room.{IsFull, KeepsRoom, most_next};
ghost use Rattle.deadpool_gate.specs.Waking.{next_due, still_unnotified};
ghost use Rattle.slab.specs.Slab.{slab_len};

mod store;
mod within;

use std::alloc::{AllocError, Global};
use std::marker::Model;
use store::{Change, Node, NodeStore};

/// Stands for one waiter while it is listed. Its number says nothing of the order, and a later waiter may get it again
/// once this one has left.
#[derive(Clone, Copy, PartialEq, Eq, PartialOrd, Ord, Hash, Debug)]
pub struct Ticket {
    number: usize,
}

impl Model for Ticket {
    ghost use Rattle.std.specs.Prelude.{ℕ};

    ghost Value = { ℕ };

    ghost view = { λ t. t.number };

    ghost inverse = { λ n. record { number = n } };
}

impl Ticket {
    /// The ticket with this number, whether or not a waiter has it.
    pub fn from_number(number: usize) -> Self
        ensures { result ≡ number }
    {
        Ticket { number }
    }

    /// Its number. Numbers of waiters that are listed are small: a gate gives those of waiters that have left again.
    pub fn number(self) -> usize
        ensures { result ≡ self }
    {
        self.number
    }
}

/// The answer to an entry.
#[derive(Clone, Copy, PartialEq, Eq, Debug)]
pub enum Entry {
    /// The gate is closed, and lists nobody any more.
    Closed,
    /// A place is free, and the caller has it from now on: the gate keeps no note of it.
    Granted,
    /// No place is free, and the caller did not want to wait.
    Full,
    /// No place is free, and there was no memory to list the caller.
    OutOfMemory,
    /// The caller is the last in the list, and asks by this ticket.
    Waiting(Ticket),
}

/// The answer to a waiter that asks.
#[derive(Clone, Copy, PartialEq, Eq, Debug)]
pub enum Ask {
    /// Nobody is listed under the ticket.
    Unknown,
    /// The gate is closed. A waiter that had a place loses it, and the place is free.
    Closed,
    /// The waiter has a place, which is the caller's from now on.
    Granted,
    /// The waiter has to wait on.
    Waiting,
}

/// What a waiter was that withdrew.
#[derive(Clone, Copy, PartialEq, Eq, Debug)]
pub enum Withdrawn {
    /// Nobody was listed under the ticket.
    Unknown,
    /// It had no place.
    Waiting,
    /// It had a place.
    Granted,
}

/// Those that wait for a place, in order of arrival. Places go to the first of them, so the ones that have a place are
/// the front of the list. How many places there are, and who has the others, is for the caller to know.
///
/// A waiter is a node that names its neighbours by key, and its ticket is its own key. So whoever leaves is found at
/// once, wherever it stands; `touched` says how many accesses to nodes a call made. Only `enter` takes memory.
#[derive(Drop)]
pub struct Gate {
    store: NodeStore,
    // The accesses that the store had counted when the last call on `&mut self` began.
    accesses_before: u128,
    first: Option<usize>,
    last: Option<usize>,
    first_waiting: Option<usize>,
    first_unnotified: Option<usize>,
    granted: usize,
    waiting: usize,
    is_closed: bool,
}

impl Model for Gate {
    ghost use Rattle.deadpool_gate.specs.Gate.{Line};

    ghost Value = { Line };

    ghost use Rattle.deadpool_gate.specs.GateFields.{line_of, GateInvariant};

    ghost view = { line_of };

    ghost invariant = { GateInvariant };
}

// Where a pointer points once the node under `key` has gone, behind which stands `behind`.
fn move_on(pointer: Option<usize>, key: usize, behind: Option<usize>) -> Option<usize>
    ensures { result ≡ moved_on pointer key behind }
{
    match pointer {
        Some(at) if at == key => behind,
        _ => pointer,
    }
}

// Changes the node under `key`, if there is a key.
fn link(store: &mut NodeStore, key: Option<usize>, change: Change)
    ensures changes { ChangesAt key (changed change) store.old.nodes store.new.nodes }
    ensures len { slab_len store.new.nodes ≡ slab_len store.old.nodes }
    ensures room { store.new.nodes.capacity ≡ store.old.nodes.capacity }
    ensures accesses { RisesAtMost 1 store.old.accesses store.new.accesses }
{
    if let Some(key) = key {
        store.write(key, change);
    }
}

impl Gate {
    /// An open gate with nobody in line. It takes no memory until somebody waits.
    pub fn new(alloc: Global) -> Self
        ensures waiters { result.waiters ≡ [] }
        ensures open { result.is_closed ≡ false }
        ensures touched { touched result ≡ 0 }
    {
        Gate {
            store: NodeStore::new(alloc),
            accesses_before: 0,
            first: None,
            last: None,
            first_waiting: None,
            first_unnotified: None,
            granted: 0,
            waiting: 0,
            is_closed: false,
        }
    }

    /// Asks for one place if `room` of them are free, and joins the end of the list if none is and `wait` is set.
    /// A free place is taken without a look at the list, so settle first if others wait. A place that a listed waiter
    /// has is not free. After any answer but `Waiting` the list is as it was, and the caller may enter again.
    pub fn enter(&mut self, room: usize, wait: bool) -> Entry
        ensures at_once { IfSome (entry_at_once self.old.is_closed room wait)
            (λ answer. result ≡ answer) }
        ensures unchanged { IfSome (entry_at_once self.old.is_closed room wait)
            (λ _. self.new.waiters ≡ self.old.waiters) }
        ensures same_room { IfSome (entry_at_once self.old.is_closed room wait)
            (λ _. self.new.capacity ≡ self.old.capacity) }
        ensures joins { IfNone (entry_at_once self.old.is_closed room wait)
            (Joins self.old.waiters result self.new.waiters) }
        ensures memory { result ≡ Entry.OutOfMemory
            → IsFull self.old.capacity (length self.old.waiters) }
        ensures number { (ticket : ℕ)
            → result ≡ Entry.Waiting ticket → ticket ≡ self.old.next_ticket }
        ensures below { (ticket : ℕ)
            → result ≡ Entry.Waiting ticket → length self.old.waiters < self.old.capacity
            → ticket < self.old.capacity }
        ensures capacity { KeepsRoom (length self.old.waiters) self.old.capacity self.new.capacity }
        ensures closed { self.new.is_closed ≡ self.old.is_closed }
        ensures accesses { RisesAtMost 2 self.old.accesses self.new.accesses }
        ensures before { self.new.accesses_before ≡ self.old.accesses }
    {
        self.accesses_before = self.store.accesses();
        if self.is_closed {
            return Entry::Closed;
        }
        if room > 0 {
            return Entry::Granted;
        }
        if !wait {
            return Entry::Full;
        }
        let node = Node {
            previous: self.last,
            next: None,
            granted: false,
            told: false,
        };
        let Ok(key) = self.store.put(node) else {
            return Entry::OutOfMemory;
        };
        link(&mut self.store, self.last, Change::Next(Some(key)));
        self.last = Some(key);
        self.first = Some(self.first.unwrap_or(key));
        self.first_waiting = Some(self.first_waiting.unwrap_or(key));
        self.first_unnotified = Some(self.first_unnotified.unwrap_or(key));
        self.waiting += 1;
        Entry::Waiting(Ticket { number: key })
    }

    /// The number of the ticket that the next waiter gets.
    pub fn next_number(&self) -> usize
        ensures { result ≡ self.now.next_ticket }
    {
        self.store.next_key()
    }

    /// Sees that there is memory for so many waiters in all, those included that are listed. Without it, only the room
    /// may have changed.
    pub fn reserve(&mut self, waiters: usize) -> Result<(), AllocError>
        ensures enough { OnOk result (waiters ≤ self.new.capacity) }
        ensures capacity { self.old.capacity ≤ self.new.capacity }
        ensures waiters { self.new.waiters ≡ self.old.waiters }
        ensures closed { self.new.is_closed ≡ self.old.is_closed }
        ensures next { self.new.next_ticket ≡ self.old.next_ticket }
        ensures accesses { self.new.accesses ≡ self.old.accesses }
        ensures before { self.new.accesses_before ≡ self.old.accesses }
    {
        self.accesses_before = self.store.accesses();
        self.store.reserve(waiters)
    }

    /// How many waiters it can list before it has to find memory. It never falls.
    pub fn room(&self) -> usize
        ensures { result ≡ self.now.capacity }
    {
        self.store.room()
    }

    /// The greatest number that the next waiter's ticket may have. If there is room for that waiter it is below the
    /// room.
    pub fn most_next_number(&self) -> usize
        ensures { result
            ≡ most_next self.now.capacity (length self.now.waiters) self.now.next_ticket }
    {
        let room = self.room();
        let listed = self.granted() + self.waiting();
        if listed < room {
            room - 1
        } else {
            self.next_number()
        }
    }

    // Gives a place to the earliest waiter without one.
    fn grant_one(&mut self)
        ensures waiters { self.new.waiters ≡ grant_next self.old.waiters }
        ensures closed { self.new.is_closed ≡ self.old.is_closed }
        ensures capacity { self.new.capacity ≡ self.old.capacity }
        ensures accesses { RisesAtMost 2 self.old.accesses self.new.accesses }
        ensures before { self.new.accesses_before ≡ self.old.accesses_before }
    {
        let Some(key) = self.first_waiting else {
            return;
        };
        let Some(node) = self.store.read(key) else {
            return;
        };
        self.store.write(key, Change::Granted);
        self.first_waiting = node.next;
        self.granted += 1;
        self.waiting -= 1;
    }

    /// Gives at most `room` free places to waiters, the earliest first. It answers to how many it gave one: so many
    /// places are no longer free. Nobody is told of it here.
    pub fn settle(&mut self, room: usize) -> usize
        ensures count { result ≡ grant_count self.old.is_closed room self.old.waiters }
        ensures waiters { self.new.waiters ≡ grant result self.old.waiters }
        ensures places { granted_tickets self.new.waiters
            ≡ granted_tickets self.old.waiters ++ take result (waiting_tickets self.old.waiters) }
        ensures left { waiting_tickets self.new.waiters
            ≡ drop result (waiting_tickets self.old.waiters) }
        ensures unnotified { unnotified_tickets self.new.waiters ≡ unnotified_tickets self.old.waiters }
        ensures closed { self.new.is_closed ≡ self.old.is_closed }
        ensures capacity { self.new.capacity ≡ self.old.capacity }
        ensures accesses { RisesAtMost (2 * result) self.old.accesses self.new.accesses }
        ensures before { self.new.accesses_before ≡ self.old.accesses }
    {
        self.accesses_before = self.store.accesses();
        let count = if self.is_closed {
            0
        } else {
            room.min(self.waiting())
        };
        for _given in 0..count {
            self.grant_one();
        }
        count
    }

    // Takes a waiter out of the list, and says whether it had a place.
    fn remove(&mut self, key: usize) -> Option<bool>
        ensures was { result ≡ option_map (λ w. w.granted) (find_waiter key self.old.waiters) }
        ensures waiters { self.new.waiters ≡ without_waiter key self.old.waiters }
        ensures closed { self.new.is_closed ≡ self.old.is_closed }
        ensures capacity { self.new.capacity ≡ self.old.capacity }
        ensures line { IsLine self.old.is_closed self.old.waiters }
        ensures accesses { RisesAtMost 3 self.old.accesses self.new.accesses }
        ensures before { self.new.accesses_before ≡ self.old.accesses_before }
    {
        let node = self.store.take(key)?;
        link(&mut self.store, node.previous, Change::Next(node.next));
        link(&mut self.store, node.next, Change::Previous(node.previous));
        self.first = move_on(self.first, key, node.next);
        self.last = move_on(self.last, key, node.previous);
        self.first_waiting = move_on(self.first_waiting, key, node.next);
        self.first_unnotified = move_on(self.first_unnotified, key, node.next);
        self.granted -= usize::from(node.granted);
        self.waiting -= usize::from(!node.granted);
        Some(node.granted)
    }

    // Whether a listed waiter has a place.
    fn is_granted(&mut self, key: usize) -> Option<bool>
        ensures value { result ≡ option_map (λ w. w.granted) (find_waiter key self.old.waiters) }
        ensures waiters { self.new.waiters ≡ self.old.waiters }
        ensures closed { self.new.is_closed ≡ self.old.is_closed }
        ensures capacity { self.new.capacity ≡ self.old.capacity }
        ensures accesses { RisesAtMost 1 self.old.accesses self.new.accesses }
        ensures before { self.new.accesses_before ≡ self.old.accesses_before }
    {
        let node = self.store.read(key)?;
        Some(node.granted)
    }

    /// Whether a waiter is listed under the ticket and has a place. It stays as it is.
    pub fn has_place(&mut self, ticket: Ticket) -> bool
        ensures has { result ≡ has_number ticket (granted_tickets self.old.waiters) }
        ensures waiters { self.new.waiters ≡ self.old.waiters }
        ensures closed { self.new.is_closed ≡ self.old.is_closed }
        ensures capacity { self.new.capacity ≡ self.old.capacity }
        ensures next { self.new.next_ticket ≡ self.old.next_ticket }
        ensures accesses { RisesAtMost 1 self.old.accesses self.new.accesses }
        ensures before { self.new.accesses_before ≡ self.old.accesses }
    {
        self.accesses_before = self.store.accesses();
        match self.store.read(ticket.number) {
            Some(node) => node.granted,
            None => false,
        }
    }

    /// Says how a waiter stands. After `Closed` or `Granted` it has left the list, and its ticket is void. After
    /// `Waiting` it keeps its position and asks again later. `Unknown` changes nothing.
    pub fn ask(&mut self, ticket: Ticket) -> Ask
        ensures answer { result
            ≡ answer_of self.old.is_closed (find_waiter ticket self.old.waiters) }
        ensures waiters { self.new.waiters ≡ asked self.old.is_closed ticket self.old.waiters }
        ensures closed { self.new.is_closed ≡ self.old.is_closed }
        ensures capacity { self.new.capacity ≡ self.old.capacity }
        ensures line { IsLine self.old.is_closed self.old.waiters }
        ensures accesses { RisesAtMost 4 self.old.accesses self.new.accesses }
        ensures before { self.new.accesses_before ≡ self.old.accesses }
    {
        self.accesses_before = self.store.accesses();
        if self.is_closed {
            return match self.remove(ticket.number) {
                Some(_) => Ask::Closed,
                None => Ask::Unknown,
            };
        }
        match self.is_granted(ticket.number) {
            Some(true) => {
                self.remove(ticket.number);
                Ask::Granted
            }
            Some(false) => Ask::Waiting,
            None => Ask::Unknown,
        }
    }

    /// Takes a waiter out of the list, be the gate open or closed, and says what it was. The others keep their order,
    /// and a place that it had is free. `Unknown` changes nothing.
    pub fn withdraw(&mut self, ticket: Ticket) -> Withdrawn
        ensures answer { result ≡ withdrawn_as (find_waiter ticket self.old.waiters) }
        ensures waiters { self.new.waiters ≡ without_waiter ticket self.old.waiters }
        ensures closed { self.new.is_closed ≡ self.old.is_closed }
        ensures capacity { self.new.capacity ≡ self.old.capacity }
        ensures line { IsLine self.old.is_closed self.old.waiters }
        ensures accesses { RisesAtMost 3 self.old.accesses self.new.accesses }
        ensures before { self.new.accesses_before ≡ self.old.accesses }
    {
        self.accesses_before = self.store.accesses();
        match self.remove(ticket.number) {
            Some(true) => Withdrawn::Granted,
            Some(false) => Withdrawn::Waiting,
            None => Withdrawn::Unknown,
        }
    }

    /// Closes the gate, for good: from now on it lists nobody and grants nothing. Those that are listed stay until they
    /// ask or withdraw.
    pub fn close(&mut self)
        ensures waiters { self.new.waiters ≡ self.old.waiters }
        ensures closed { self.new.is_closed ≡ true }
        ensures capacity { self.new.capacity ≡ self.old.capacity }
        ensures accesses { self.new.accesses ≡ self.old.accesses }
        ensures before { self.new.accesses_before ≡ self.old.accesses }
    {
        self.accesses_before = self.store.accesses();
        self.is_closed = true;
    }

    /// The earliest listed waiter whose wait has ended, by a place or by the closing, and who was not told so. With
    /// this answer it counts as told. It stays in the list until it asks or withdraws.
    pub fn take_wake(&mut self) -> Option<Ticket>
        ensures ticket { result ≡ due_ticket self.old.is_closed self.old.waiters }
        ensures waiters { self.new.waiters ≡ tell_next self.old.is_closed self.old.waiters }
        ensures granted { granted_tickets self.new.waiters ≡ granted_tickets self.old.waiters }
        ensures waiting { waiting_tickets self.new.waiters ≡ waiting_tickets self.old.waiters }
        ensures next { result ≡ next_due (not self.old.is_closed)
            (granted_tickets self.old.waiters) (unnotified_tickets self.old.waiters) }
        ensures unnotified { unnotified_tickets self.new.waiters
            ≡ still_unnotified result (unnotified_tickets self.old.waiters) }
        ensures closed { self.new.is_closed ≡ self.old.is_closed }
        ensures capacity { self.new.capacity ≡ self.old.capacity }
        ensures accesses { RisesAtMost 2 self.old.accesses self.new.accesses }
        ensures before { self.new.accesses_before ≡ self.old.accesses }
    {
        self.accesses_before = self.store.accesses();
        let key = self.first_unnotified?;
        if !self.is_closed && self.first_waiting == Some(key) {
            return None;
        }
        let node = self.store.read(key)?;
        self.store.write(key, Change::Told);
        self.first_unnotified = node.next;
        Some(Ticket { number: key })
    }

    /// Whether `take_wake` would name somebody. It looks at no waiter.
    pub fn is_wake_due(&self) -> bool
        ensures due { result ≡ is_some (due_ticket self.now.is_closed self.now.waiters) }
        ensures next { result ≡ is_some (next_due (not self.now.is_closed)
            (granted_tickets self.now.waiters) (unnotified_tickets self.now.waiters)) }
    {
        let Some(key) = self.first_unnotified else {
            return false;
        };
        self.is_closed || self.first_waiting != Some(key)
    }

    /// Whether the gate was closed.
    pub fn is_closed(&self) -> bool
        ensures { result ≡ self.now.is_closed }
    {
        self.is_closed
    }

    /// How many of the listed have a place, and have not yet taken it by asking.
    pub fn granted(&self) -> usize
        ensures count { result ≡ granted_count self.now.waiters }
        ensures line { IsLine self.now.is_closed self.now.waiters }
        ensures within { length self.now.waiters < 2 ^ 63 }
    {
        self.granted
    }

    /// How many of the listed have none.
    pub fn waiting(&self) -> usize
        ensures count { result ≡ waiting_count self.now.waiters }
        ensures line { IsLine self.now.is_closed self.now.waiters }
        ensures within { length self.now.waiters < 2 ^ 63 }
    {
        self.waiting
    }

    /// How many accesses to nodes the last call on `&mut self` made: reads, writes of one field, nodes put in and nodes
    /// taken out. Calls on `&self` make none, and leave this as it is. So does a `settle_within` while nobody waits.
    pub fn touched(&self) -> u128
        ensures { result ≡ touched self.now }
    {
        self.store.accesses().saturating_sub(self.accesses_before)
    }
}
