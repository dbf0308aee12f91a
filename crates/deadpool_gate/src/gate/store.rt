//! The nodes of a gate. They are reached only through this store, which counts each access to one of them.

ghost use Rattle.std.specs.Prelude.{◌≡◌, ◌+◌, ◌-◌, ◌<◌, ◌≤◌, ◌^◌, min, [], Some, None, IfOk, OnOk, OnErr, OnSome};
ghost use Rattle.std.specs.Prelude.{IfNone};
ghost use Rattle.std.specs.Option.{option_map};
ghost use Rattle.deadpool_gate.specs.GateNodes.{changed};
ghost use Rattle.deadpool_gate.specs.Room.{IsFull};
ghost use Rattle.slab.specs.Slab.{get, slab_len, Updates};

use slab::Slab;
use std::alloc::{AllocError, Global};

/// A listed waiter, with the keys of its neighbours.
#[derive(Clone, Copy)]
pub struct Node {
    pub previous: Option<usize>,
    pub next: Option<usize>,
    pub granted: bool,
    pub told: bool,
}

/// What a write sets in a node: one field.
#[derive(Clone, Copy)]
pub enum Change {
    Previous(Option<usize>),
    Next(Option<usize>),
    Granted,
    Told,
}

impl Node {
    fn with(self, change: Change) -> Self
        ensures { result ≡ changed change self }
    {
        match change {
            Change::Previous(previous) => Node { previous, ..self },
            Change::Next(next) => Node { next, ..self },
            Change::Granted => Node {
                granted: true,
                ..self
            },
            Change::Told => Node { told: true, ..self },
        }
    }
}

/// The nodes under their keys.
#[derive(Drop)]
pub struct NodeStore {
    nodes: Slab<Node>,
    accesses: u128,
}

impl NodeStore {
    /// No nodes, and no memory for any.
    pub fn new(alloc: Global) -> Self
        ensures nodes { result.nodes.slots ≡ [] }
        ensures accesses { result.accesses ≡ 0 }
    {
        NodeStore {
            nodes: Slab::new(alloc),
            accesses: 0,
        }
    }

    /// Sees that there is memory for so many nodes in all. It is no access to a node.
    pub fn reserve(&mut self, nodes: usize) -> Result<(), AllocError>
        ensures enough { OnOk result (nodes ≤ self.new.nodes.capacity) }
        ensures room { self.old.nodes.capacity ≤ self.new.nodes.capacity }
        ensures slots { self.new.nodes.slots ≡ self.old.nodes.slots }
        ensures next { self.new.nodes.vacant_key ≡ self.old.nodes.vacant_key }
        ensures accesses { self.new.accesses ≡ self.old.accesses }
    {
        let more = nodes.saturating_sub(self.nodes.len());
        self.nodes.reserve_exact(more)
    }

    /// How many nodes there is memory for.
    pub fn room(&self) -> usize
        ensures { result ≡ self.now.nodes.capacity }
    {
        self.nodes.capacity()
    }

    /// How many accesses there were so far. It never falls; at the greatest number it stays.
    pub fn accesses(&self) -> u128
        ensures { result ≡ self.now.accesses }
    {
        self.accesses
    }

    /// The key that the next node gets. It is no access to a node.
    pub fn next_key(&self) -> usize
        ensures { result ≡ self.now.nodes.vacant_key }
    {
        self.nodes.vacant_key()
    }

    /// Reads a node: one access.
    pub fn read(&mut self, key: usize) -> Option<Node>
        ensures node { result ≡ get self.old.nodes key }
        ensures nodes { self.new.nodes ≡ self.old.nodes }
        ensures accesses { self.new.accesses ≡ min (self.old.accesses + 1) (2 ^ 128 - 1) }
        ensures rises { self.old.accesses ≤ self.new.accesses }
    {
        self.accesses = self.accesses.saturating_add(1);
        self.nodes.get(key).copied()
    }

    /// Writes one field of a node, if there is one under the key: one access.
    pub fn write(&mut self, key: usize, change: Change)
        ensures updates { Updates self.old.nodes self.new.nodes key
            (option_map (changed change) (get self.old.nodes key)) }
        ensures len { slab_len self.new.nodes ≡ slab_len self.old.nodes }
        ensures room { self.new.nodes.capacity ≡ self.old.nodes.capacity }
        ensures accesses { self.new.accesses ≡ min (self.old.accesses + 1) (2 ^ 128 - 1) }
        ensures rises { self.old.accesses ≤ self.new.accesses }
    {
        self.accesses = self.accesses.saturating_add(1);
        if let Some(node) = self.nodes.get_mut(key) {
            *node = node.with(change);
        }
    }

    /// Puts a node in, under a key that had none: one access. If no memory is found only the count changes. Half of
    /// all numbers is taken to be more nodes than any memory has.
    pub fn put(&mut self, node: Node) -> Result<usize, AllocError>
        ensures next { IfOk result (λ key. key ≡ self.old.nodes.vacant_key) }
        ensures vacant { IfOk result (λ key. get self.old.nodes key ≡ None) }
        ensures updates { IfOk result
            (λ key. Updates self.old.nodes self.new.nodes key (Some node)) }
        ensures len { OnOk result (slab_len self.new.nodes ≡ slab_len self.old.nodes + 1) }
        ensures few { OnOk result (slab_len self.new.nodes < 2 ^ 63) }
        ensures unchanged { OnErr result (self.new.nodes.slots ≡ self.old.nodes.slots) }
        ensures full { OnErr result
            (IsFull self.old.nodes.capacity (slab_len self.old.nodes)) }
        ensures room { self.old.nodes.capacity ≤ self.new.nodes.capacity }
        ensures enough { slab_len self.old.nodes < self.old.nodes.capacity
            → self.new.nodes.capacity ≡ self.old.nodes.capacity }
        ensures below { IfOk result (λ key. key < self.new.nodes.capacity) }
        ensures accesses { self.new.accesses ≡ min (self.old.accesses + 1) (2 ^ 128 - 1) }
        ensures rises { self.old.accesses ≤ self.new.accesses }
    {
        self.accesses = self.accesses.saturating_add(1);
        if self.nodes.len() >= usize::MAX / 2 {
            return Err(AllocError);
        }
        match self.nodes.insert(node) {
            Ok(key) => Ok(key),
            Err(_) => Err(AllocError),
        }
    }

    /// Takes a node out: one access. Its key may be given again.
    pub fn take(&mut self, key: usize) -> Option<Node>
        ensures node { result ≡ get self.old.nodes key }
        ensures updates { Updates self.old.nodes self.new.nodes key None }
        ensures len { OnSome result (slab_len self.new.nodes + 1 ≡ slab_len self.old.nodes) }
        ensures none { IfNone result (self.new.nodes ≡ self.old.nodes) }
        ensures room { self.new.nodes.capacity ≡ self.old.nodes.capacity }
        ensures accesses { self.new.accesses ≡ min (self.old.accesses + 1) (2 ^ 128 - 1) }
        ensures rises { self.old.accesses ≤ self.new.accesses }
    {
        self.accesses = self.accesses.saturating_add(1);
        self.nodes.try_remove(key)
    }
}
