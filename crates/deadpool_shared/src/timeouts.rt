//! The timeouts of a get: its own, or lent ones.
ghost use Rattle.std.specs.Prelude.{◌≡◌};
ghost use Rattle.std.specs.Option.{unwrap_or};
ghost use Rattle.deadpool_parts.specs.declared.config.Timeouts.{Timeouts};

use deadpool_managed::Timeouts;
use std::marker::Model;

/// Says which timeouts a get has.
pub trait HasTimeouts: Drop {
    // Those that it has, beside its pool's.
    ghost chosen: { Self → Timeouts → Timeouts };

    /// The timeouts of a get, of a pool that was built with these.
    fn timeouts<'s>(&'s self, of_pool: &'s Timeouts) -> &'s Timeouts
        ensures { result.now ≡ chosen self.now of_pool.now };
}

/// Timeouts of its own, or those of its pool. Contracts see those of its own.
#[derive(Drop)]
pub struct OwnTimeouts {
    timeouts: Option<Timeouts>,
}

impl Model for OwnTimeouts {
    ghost use Rattle.std.specs.Prelude.{Option};
    ghost use Rattle.deadpool_parts.specs.declared.config.Timeouts.{Timeouts};

    ghost Value = { Option Timeouts };

    ghost view = { λ o. o.timeouts };
}

impl OwnTimeouts {
    #[inline(always)]
    pub(crate) fn new(timeouts: Option<Timeouts>) -> Self
        ensures { result ≡ timeouts }
    {
        OwnTimeouts { timeouts }
    }
}

impl HasTimeouts for OwnTimeouts {
    ghost chosen = { unwrap_or };

    #[inline(always)]
    fn timeouts<'s>(&'s self, of_pool: &'s Timeouts) -> &'s Timeouts {
        self.timeouts.as_ref().unwrap_or(of_pool)
    }
}

/// Timeouts that are lent. Contracts see these.
#[derive(Drop)]
pub struct LentTimeouts<'a> {
    timeouts: &'a Timeouts,
}

impl<'a> Model for LentTimeouts<'a> {
    ghost Value = { Timeouts };

    ghost view = { λ l. l.timeouts.now };
}

impl<'a> LentTimeouts<'a> {
    #[inline(always)]
    pub(crate) fn new(timeouts: &'a Timeouts) -> Self
        ensures { result ≡ timeouts.now }
    {
        LentTimeouts { timeouts }
    }
}

impl<'a> HasTimeouts for LentTimeouts<'a> {
    ghost chosen = { λ timeouts _. timeouts };

    #[inline(always)]
    fn timeouts<'s>(&'s self, _of_pool: &'s Timeouts) -> &'s Timeouts {
        self.timeouts
    }
}
