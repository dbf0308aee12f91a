//! The lock of a pool, with what one holder has.
ghost use Rattle.std.specs.Prelude.{◌≡◌, Some, None, IfNone};
ghost use Rattle.std.specs.Option.{option_or};
ghost use Rattle.deadpool_journal.specs.ByNumber.{number_in};
ghost use Rattle.deadpool_shared.specs.Calling.{CallsFromSeat, IsSupplied};
ghost use Rattle.deadpool_shared.specs.Counts.{IsHeldBy, IsKnown, caller_of, counts_of, had};
ghost use Rattle.deadpool_shared.specs.Counts.{held_by, waits_by};

use crate::ledgers::{History, Ledgers};
use crate::locked::Locked;
use crate::shared::Shared;
use crate::shares::Shares;
use deadpool_chronicle::Caller;
use deadpool_history::Line;
use deadpool_lock::{Departure, Registered};
use deadpool_managed::{AsyncHook, Clock, Desk, Kept, Manager, Reply, Slot, Step, SyncHook};
use std::marker::Model;
use std::sync::Wait;

/// The lock of a pool, which is lent it, with the shares of one get or object, and what the get hears by. Each step is
/// one section of the lock. After it, with the lock given back, the wakers are called of the gets that it made due, and
/// then the holder's caller has seen a moment at which all were told.
/// What a step lets go of is departing until the holder has detached and dropped it, and says so.
///
/// A get without shares is handed out some as it enters. Contracts see a seat as its shares, if it has some. A step
/// that lowers a count asks that the shares have what it lowers. By the lines of its caller the holder has the object
/// that goes back, and waits under the ticket that it names. So no step is ever answered `Unknown`. A seat cannot be
/// dropped, since its shares cannot.
pub struct Seat<
    'a,
    M: Manager,
    F: SyncHook<M>,
    A: AsyncHook<M>,
    C: Clock,
    R: Wait + Drop,
    L: Ledgers,
> {
    shared: &'a Shared<M, F, A, C, R, L>,
    // None before a get enters that was handed out none.
    shares: Option<Shares<L>>,
    registered: &'a mut Registered,
    departure: &'a mut Option<Departure>,
}

impl<'a, M: Manager, F: SyncHook<M>, A: AsyncHook<M>, C: Clock, R: Wait + Drop, L: Ledgers> Model
    for Seat<'a, M, F, A, C, R, L> {
    ghost use Rattle.std.specs.Prelude.{Option};
    ghost use Rattle.deadpool_shared.specs.Counts.{Holder};

    ghost Value = { Option Holder };

    ghost view = { λ s. s.shares };
}

impl<'a, M: Manager, F: SyncHook<M>, A: AsyncHook<M>, C: Clock, R: Wait + Drop, L: Ledgers> Desk<
    Kept<M::Type>,
> for Seat<'a, M, F, A, C, R, L> {
    ghost holds = { λ seat holding. IsHeldBy seat holding };

    ghost takes_back = { λ seat number. held_by seat ≡ Some number };

    ghost waits = { λ seat ticket. waits_by seat ≡ Some ticket };

    ghost makes = { λ s step was reply hand s'. IsKnown reply
        × CallsFromSeat step (number_in (option_or was hand)) reply s s' };

    #[inline(always)]
    fn make(&mut self, step: &Step, hand: &mut Option<Slot<Kept<M::Type>>>) -> Reply {
        let mut section = self.shared.lock.begin();
        supply(section.kept(), &mut self.shares);
        match &mut self.shares {
            Some(shares) => {
                let (reply, spare) = section
                    .kept()
                    .make(shares, step, hand, self.registered, self.departure);
                self.shared.lock.end(section, &mut shares.caller);
                drop(spare);
                reply
            }
            // (it holds nothing, and waits under no ticket)
            None => {
                let mut caller = section.kept().admit();
                self.shared.lock.end(section, &mut caller);
                match step {
                    Step::Enter { .. } => Reply::Exhausted,
                    _ => unreachable!(),
                }
            }
        }
    }
}

impl<'a, M: Manager, F: SyncHook<M>, A: AsyncHook<M>, C: Clock, R: Wait + Drop, L: Ledgers> Seat<
    'a,
    M,
    F,
    A,
    C,
    R,
    L,
> {
    // A seat with the shares of one get or object.
    pub(crate) fn new(
        shared: &'a Shared<M, F, A, C, R, L>,
        shares: Option<Shares<L>>,
        registered: &'a mut Registered,
        departure: &'a mut Option<Departure>,
    ) -> Self
        ensures { result ≡ shares }
    {
        Seat {
            shared,
            shares,
            registered,
            departure,
        }
    }

    // Uses up a seat whose holder has given back what it had, and gives its caller back.
    pub(crate) fn leave(self) -> Option<Caller<Line, History<L>>>
        requires nothing { had self ≡ counts_of None }
        ensures { result ≡ caller_of self.entry }
    {
        Shares::hand_in(self.into_shares())
    }

    // What is left with the seat's holder.
    pub(crate) fn into_shares(self) -> Option<Shares<L>>
        ensures { result ≡ self.entry }
    {
        let Seat {
            shared: _,
            shares,
            registered: _,
            departure: _,
        } = self;
        shares
    }
}

// Hands shares out to a holder that has none yet, if some are left.
#[inline(always)]
fn supply<T: Drop, L: Ledgers>(locked: &mut Locked<T, L>, shares: &mut Option<Shares<L>>)
    ensures same { had shares.new ≡ had shares.old }
    ensures supplied { IsSupplied shares.old shares.new }
    ensures none { IfNone shares.new (locked.old.books.left ≡ 0) }
{
    if shares.is_none() {
        Shares::put(shares, locked.hand_out());
    }
}
