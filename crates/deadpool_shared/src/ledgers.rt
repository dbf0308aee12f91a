//! The three ledgers that a pool counts by, and the history of its steps, under one name.
ghost use Rattle.std.specs.Prelude.{◌≡◌, ◌-◌, ◌^◌};
ghost use Rattle.deadpool_shared.specs.Names.{Names};

use deadpool_chronicle::Chronicle;
use std::marker::{Brand, Model, PhantomData};
use std::sync::ledger::{Blank, Ledger};

/// Which three ledgers a pool counts by, and which history it has.
pub trait Ledgers {
    ghost names: { Names };
}

impl Ledgers for Brand {
    ghost names = { record {
      going = 0;
      creations = 0;
      outside = 0;
      history = record { entries = 0; pages = 0 };
    } };
}

/// The ledger of the places of gets that hold nothing else.
pub struct Going<L> {
    of: PhantomData<L>,
}

impl<L: Ledgers> Ledger for Going<L> {
    ghost name = { L.names.going };

    ghost parts = { 2 ^ 64 - 1 };
}

/// The ledger of the creations under way.
pub struct Creations<L> {
    of: PhantomData<L>,
}

impl<L: Ledgers> Ledger for Creations<L> {
    ghost name = { L.names.creations };

    ghost parts = { 2 ^ 64 - 1 };
}

/// The ledger of the objects that are not idle.
pub struct Outside<L> {
    of: PhantomData<L>,
}

impl<L: Ledgers> Ledger for Outside<L> {
    ghost name = { L.names.outside };

    ghost parts = { 2 ^ 64 - 1 };
}

/// The history of the steps of gets, objects and owners.
pub struct History<L> {
    of: PhantomData<L>,
}

impl<L: Ledgers> Chronicle for History<L> {
    ghost names = { L.names.history };
}

/// Three new ledgers and a new history, which no type stands for yet. Contracts see their names.
#[derive(Drop)]
pub struct Blanks {
    going: Blank,
    creations: Blank,
    outside: Blank,
    history: deadpool_chronicle::Blank,
}

impl Model for Blanks {
    ghost use Rattle.std.specs.Prelude.{◌≡◌, ◌-◌, ◌^◌};
    ghost use Rattle.deadpool_shared.specs.Names.{Names};

    ghost Value = { Names };

    ghost view = { λ b. record {
      going = b.going.name;
      creations = b.creations.name;
      outside = b.outside.name;
      history = b.history.names;
    } };

    ghost invariant = { λ b. (b.going.parts ≡ 2 ^ 64 - 1) × (b.creations.parts ≡ 2 ^ 64 - 1)
        × (b.outside.parts ≡ 2 ^ 64 - 1) };
}

impl Blanks {
    /// Ledgers with `u64::MAX` parts each, of which a get takes one.
    pub fn new() -> Self {
        Blanks {
            going: Blank::new(u64::MAX),
            creations: Blank::new(u64::MAX),
            outside: Blank::new(u64::MAX),
            history: deadpool_chronicle::Blank::new(),
        }
    }

    // Each of the three ledgers, and the history.
    pub(crate) fn into_parts(self) -> ((Blank, Blank, Blank), deadpool_chronicle::Blank)
        ensures names { (result.0.0.name ≡ self.going)
            × (result.0.1.name ≡ self.creations) × (result.0.2.name ≡ self.outside) }
        ensures parts { (result.0.0.parts ≡ 2 ^ 64 - 1)
            × (result.0.1.parts ≡ 2 ^ 64 - 1) × (result.0.2.parts ≡ 2 ^ 64 - 1) }
        ensures history { result.1.names ≡ self.history }
    {
        let Blanks {
            going,
            creations,
            outside,
            history,
        } = self;
        ((going, creations, outside), history)
    }
}
