//! What is known of the three counts of a pool: three ledgers.
ghost use Rattle.std.specs.Prelude.{◌≡◌, ◌≤◌, ◌<◌, ◌-◌, ◌^◌, is_some, nat_lt, IfSome, None};
ghost use Rattle.deadpool_shared.specs.Counts.{caller_of, counts, counts_of, had, shifted};

use crate::ledgers::{Creations, Going, History, Ledgers, Outside};
use deadpool_chronicle::Caller;
use deadpool_history::Line;
use deadpool_managed::Held;
use std::marker::Model;
use std::mem;
use std::sync::ledger::{Blank, Book, Share};

/// What one holder has of the three counts, and the caller by whose name its steps stand in the history. It takes no
/// bytes. It cannot be dropped: `hand_in` alone takes it, from a holder that has nothing, so that no holder is let go
/// of before the step by which it gives back what it has.
pub struct Shares<L: Ledgers> {
    going: Share<Going<L>>,
    creations: Share<Creations<L>>,
    outside: Share<Outside<L>>,
    pub(crate) caller: Caller<Line, History<L>>,
}

impl<L: Ledgers> Model for Shares<L> {
    ghost use Rattle.std.specs.Prelude.{◌≡◌};
    ghost use Rattle.deadpool_shared.specs.Counts.{Holder, counts};

    ghost Value = { Holder };

    ghost view = { λ s. record {
      has = counts s.going.amount s.creations.amount s.outside.amount;
      caller = s.caller;
    } };

    ghost invariant = { λ s. (s.going.parts ≡ 1) × (s.creations.parts ≡ 1) × (s.outside.parts ≡ 1) };
}

impl<L: Ledgers> Shares<L> {
    /// Uses up the shares of a holder that has nothing, if it was handed out some, and gives its caller back.
    #[inline(always)]
    pub fn hand_in(shares: Option<Self>) -> Option<Caller<Line, History<L>>>
        requires nothing { had shares ≡ counts_of None }
        ensures { result ≡ caller_of shares }
    {
        match shares {
            Some(
                Shares {
                    going: _,
                    creations: _,
                    outside: _,
                    caller,
                },
            ) => Some(caller),
            None => None,
        }
    }

    /// Puts what a holder has in its place, where nothing is.
    #[inline(always)]
    pub fn put(place: &mut Option<Self>, shares: Option<Self>)
        requires nothing { had place.old ≡ counts_of None }
        ensures { place.new ≡ shares }
    {
        Shares::hand_in(mem::replace(place, shares));
    }
}

/// The totals of all shares, and the parts that nobody has. Each ledger has `u64::MAX` parts.
#[derive(Drop)]
pub struct Books<L: Ledgers> {
    going: Book<Going<L>>,
    creations: Book<Creations<L>>,
    outside: Book<Outside<L>>,
    left: u64,
    going_left: Share<Going<L>>,
    creations_left: Share<Creations<L>>,
    outside_left: Share<Outside<L>>,
}

impl<L: Ledgers> Model for Books<L> {
    ghost use Rattle.std.specs.Prelude.{◌≡◌};
    ghost use Rattle.deadpool_shared.specs.Counts.{BooksState, counts};

    ghost Value = { BooksState };

    ghost view = { λ b. record { totals = counts b.going.total b.creations.total b.outside.total; left = b.left } };

    ghost invariant = { λ b. (b.going_left.parts ≡ b.left) × (b.creations_left.parts ≡ b.left)
        × (b.outside_left.parts ≡ b.left) × (b.going_left.amount ≡ 0) × (b.creations_left.amount ≡ 0)
        × (b.outside_left.amount ≡ 0) };
}

// How many places, creations and objects a holder has.
fn amounts(held: Option<Held>) -> (u64, u64, u64)
    ensures { counts result.0 result.1 result.2 ≡ counts_of held }
{
    match held {
        None => (0, 0, 0),
        Some(Held::Place) => (1, 0, 0),
        Some(Held::Creation) => (0, 1, 0),
        Some(Held::Object) => (0, 0, 1),
    }
}

impl<L: Ledgers> Books<L> {
    /// Three new ledgers, of which nobody has a share.
    pub fn new(blanks: (Blank, Blank, Blank)) -> Self
        requires names { (blanks.0.name ≡ L.names.going)
            × (blanks.1.name ≡ L.names.creations) × (blanks.2.name ≡ L.names.outside) }
        requires parts { (blanks.0.parts ≡ 2 ^ 64 - 1)
            × (blanks.1.parts ≡ 2 ^ 64 - 1) × (blanks.2.parts ≡ 2 ^ 64 - 1) }
        ensures { result ≡ record { totals = counts 0 0 0; left = u64.MAX } }
    {
        let (going, creations, outside) = blanks;
        let (going, going_left) = going.open::<Going<L>>();
        let (creations, creations_left) = creations.open::<Creations<L>>();
        let (outside, outside_left) = outside.open::<Outside<L>>();
        Books {
            going,
            creations,
            outside,
            left: u64::MAX,
            going_left,
            creations_left,
            outside_left,
        }
    }

    /// Shares for one holder that has nothing yet and calls by this name, if a part of each ledger is left.
    pub fn hand_out(&mut self, caller: Caller<Line, History<L>>) -> Option<Shares<L>>
        ensures shares { IfSome result (λ shares.
            shares ≡ record { has = counts_of None; caller = caller }) }
        ensures given { is_some result ≡ nat_lt 0 self.old.left }
        ensures left { self.new ≡ record self.old { left = self.old.left - 1 } }
    {
        if self.left == 0 {
            return None;
        }
        self.left -= 1;
        let going = self.going_left.split_off(1, 0);
        let creations = self.creations_left.split_off(1, 0);
        let outside = self.outside_left.split_off(1, 0);
        Some(Shares {
            going,
            creations,
            outside,
            caller,
        })
    }

    /// No holder has more than the totals.
    pub fn audit(&mut self, shares: &mut Shares<L>)
        ensures totals { self.new ≡ self.old }
        ensures shares { shares.new ≡ shares.old }
        ensures going { shares.old.has.going ≤ self.old.totals.going }
        ensures creations { shares.old.has.creations ≤ self.old.totals.creations }
        ensures outside { shares.old.has.outside ≤ self.old.totals.outside }
    {
        self.going.audit(&mut shares.going);
        self.creations.audit(&mut shares.creations);
        self.outside.audit(&mut shares.outside);
    }

    /// A holder has something else from now on.
    pub fn shift(&mut self, shares: &mut Shares<L>, old: Option<Held>, new: Option<Held>)
        requires { shares.old.has ≡ counts_of old }
        ensures totals { self.new ≡ record self.old { totals = shifted old new self.old.totals } }
        ensures shares { shares.new ≡ record shares.old { has = counts_of new } }
    {
        let (going, creations, outside) = amounts(old);
        self.going.sub(&mut shares.going, going);
        self.creations.sub(&mut shares.creations, creations);
        self.outside.sub(&mut shares.outside, outside);
        let (going, creations, outside) = amounts(new);
        self.going.add(&mut shares.going, going);
        self.creations.add(&mut shares.creations, creations);
        self.outside.add(&mut shares.outside, outside);
    }
}
