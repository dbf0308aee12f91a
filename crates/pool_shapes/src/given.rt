//! Which objects parties were given.
ghost use Rattle.std.specs.Prelude.{◌≡◌, [], IfOk, OnErr};
ghost use Rattle.pool_shapes.specs.Given.{with_party, with_gift, left_without, LosesObject};

use std::alloc::{AllocError, Global};
use std::marker::Model;

/// Which object each party was given, if it was given one that is out. A trial does not keep it: it follows from the
/// replies.
#[derive(Drop)]
pub struct Given {
    // By the party's number.
    objects: Vec<Option<usize>>,
}

impl Model for Given {
    ghost use Rattle.std.specs.Prelude.{ℕ, List, Option};

    ghost Value = { List (Option ℕ) };

    ghost view = { λ g. g.objects.items };
}

impl Given {
    /// Of no party.
    pub fn new(alloc: Global) -> Self
        ensures { result ≡ [] }
    {
        Given {
            objects: Vec::new(alloc),
        }
    }

    /// A party has started. If there is no memory, nothing has changed.
    pub fn add_party(&mut self) -> Result<(), AllocError>
        ensures added { IfOk result (λ _. self.new ≡ with_party self.old) }
        ensures refused { OnErr result (self.new ≡ self.old) }
    {
        self.objects.push(None)?;
        Ok(())
    }

    /// A party was given this object. Of a party that has not started nothing is kept.
    pub fn give(&mut self, party: usize, number: usize)
        ensures { self.new ≡ with_gift party number self.old }
    {
        if party < self.objects.len() {
            self.objects[party] = Some(number);
        }
    }

    /// This object is out no more.
    pub fn take_away(&mut self, number: usize)
        ensures { LosesObject number self.old self.new }
    {
        for party in 0..self.objects.len() {
            self.objects[party] = left_without(number, self.objects[party]);
        }
    }

    /// By the party's number.
    pub fn as_slice(&self) -> &[Option<usize>]
        ensures { result.now ≡ self.now }
    {
        &self.objects
    }
}

// What is left to a party if this object is out no more.
fn left_without(number: usize, object: Option<usize>) -> Option<usize>
    ensures { result ≡ left_without number object }
{
    match object {
        Some(given) if given != number => Some(given),
        _ => None,
    }
}
