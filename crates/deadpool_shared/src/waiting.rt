//! How long a get waits for a place.
ghost use Rattle.std.specs.Prelude.{◌≡◌, false};
ghost use Rattle.deadpool_shared.specs.Waits.{WaitsOn, nanos_at, nanos_waited};

use deadpool_managed::Moment;

// Whether a get stands in the queue, or how long it did, in nanoseconds.
#[derive(Clone, Copy)]
pub(crate) enum Waiting {
    // No poll has left it there.
    Never,
    // It stands there since then.
    Since(u64),
    // It stood there so long.
    For(u64),
}

impl Waiting {
    // What a poll makes of it, by its moment and by whether it leaves the get in the queue.
    #[inline(always)]
    pub(crate) fn see(&mut self, now: Moment, is_queued: bool)
        ensures { WaitsOn now is_queued self.old self.new }
    {
        match *self {
            Waiting::Never if is_queued => *self = Waiting::Since(nanos_at(now)),
            Waiting::Since(joined) if !is_queued => {
                *self = Waiting::For(nanos_at(now).saturating_sub(joined));
            }
            _ => {}
        }
    }

    // What a poll makes of it that gives the get its place and its object, and how many nanoseconds the get waited.
    #[inline(always)]
    pub(crate) fn end(&mut self, now: Moment) -> u64
        ensures ended { WaitsOn now false self.old self.new }
        ensures waited { result ≡ nanos_waited self.new }
    {
        match *self {
            Waiting::Never => 0,
            Waiting::Since(joined) => {
                let nanos = nanos_at(now).saturating_sub(joined);
                *self = Waiting::For(nanos);
                nanos
            }
            Waiting::For(nanos) => nanos,
        }
    }
}

// A moment in nanoseconds, of which the greatest `u64` is the last.
fn nanos_at(moment: Moment) -> u64
    ensures { result ≡ nanos_at moment }
{
    if moment.0 > u64::MAX as u128 {
        return u64::MAX;
    }
    moment.0 as u64
}
