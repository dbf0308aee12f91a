//! What a column of a picture is of.
use deadpool_managed::{Moment, PoolError};
use deadpool_trial::{Move, Reply, unmanaged};
use deadpool_unmanaged as plain;
use std::fmt;

/// Why a get or an add has ended, or an object was given up.
#[derive(Clone, Copy, Debug, PartialEq, Eq)]
pub enum Why {
    Cancelled,
    Closed,
    /// Its time was over.
    Late,
    /// As many waited as may.
    Crowded,
    /// By the manager or a hook; an idle object also if they took too long.
    Refused,
    AboveLimit,
    NotRetained,
    Taken,
    /// The pool has no handle left.
    NoHandle,
    NoRuntime,
    NoMemory,
    /// No number is left for an object.
    NoNumber,
}

impl fmt::Display for Why {
    fn fmt<W: fmt::Write>(&self, f: &mut fmt::Formatter<W>) -> fmt::Result {
        f.write_str(self.text())
    }
}

impl Why {
    /// As it stands in a picture.
    pub fn text(self) -> &'static str {
        match self {
            Why::Cancelled => "cancelled",
            Why::Closed => "closed",
            Why::Late => "late",
            Why::Crowded => "crowded",
            Why::Refused => "refused",
            Why::AboveLimit => "above the limit",
            Why::NotRetained => "not retained",
            Why::Taken => "taken",
            Why::NoHandle => "no handle left",
            Why::NoRuntime => "no runtime",
            Why::NoMemory => "no memory",
            Why::NoNumber => "no number left",
        }
    }
}

/// What the pool's owner has done.
#[derive(Clone, Copy, Debug, PartialEq, Eq)]
pub enum Owner {
    Nothing,
    Resize,
    Close,
    Retain,
}

/// What a column is of.
#[derive(Clone, Copy, Debug)]
pub struct Event {
    /// The number of its line in the script, from 1.
    pub line: u64,
    /// The moment that the line names.
    pub moment: Option<Moment>,
    /// The get or the add that it names or starts.
    pub party: Option<usize>,
    pub owner: Owner,
    /// Why that party has ended, if it has.
    pub end: Option<Why>,
    /// Why objects were given up, if some were.
    pub gone: Why,
}

impl Event {
    /// One of which nothing is known.
    pub fn new() -> Event {
        Event {
            line: 0,
            moment: None,
            party: None,
            owner: Owner::Nothing,
            end: None,
            gone: Why::Refused,
        }
    }

    fn of_party(party: usize, now: Moment) -> Event {
        let mut event = Event::new();
        event.party = Some(party);
        event.moment = Some(now);
        event
    }

    // One by which objects are given up for this reason.
    fn giving_up(gone: Why) -> Event {
        let mut event = Event::new();
        event.gone = gone;
        event
    }

    fn of_owner(owner: Owner, gone: Why) -> Event {
        let mut event = Event::giving_up(gone);
        event.owner = owner;
        event
    }

    fn of_cancel(party: usize) -> Event {
        let mut event = Event::giving_up(Why::Cancelled);
        event.party = Some(party);
        event
    }

    /// That of a move over a managed pool, before it is made.
    pub fn of_move(next: &Move<u64>, is_closed: bool) -> Event {
        match next {
            Move::Advance(party, now) | Move::Poll(party, now) => Event::of_party(*party, *now),
            Move::Cancel(party) => Event::of_cancel(*party),
            Move::Back(_) => Event::giving_up(gone_back(is_closed, Why::AboveLimit)),
            Move::Take(_) => Event::giving_up(Why::Taken),
            Move::Resize(_) => Event::of_owner(Owner::Resize, Why::AboveLimit),
            Move::Retain(_) => Event::of_owner(Owner::Retain, Why::NotRetained),
            Move::Close => Event::of_owner(Owner::Close, Why::Closed),
            Move::DropHandle => Event::giving_up(Why::NoHandle),
            _ => Event::new(),
        }
    }

    /// Notes the reply.
    pub fn note<E>(&mut self, reply: &Reply<u64, E>) {
        match reply {
            Reply::Started(party) => self.party = Some(*party),
            Reply::Failed(cause) => self.end = Some(why_failed(cause)),
            Reply::Dropped => self.gone = Why::NoHandle,
            _ => {}
        }
    }

    /// That of a move over an unmanaged pool, before it is made.
    pub fn of_unmanaged(next: &unmanaged::Move<u64>, is_closed: bool) -> Event {
        use unmanaged::Move;
        match next {
            Move::Poll(party, now) => Event::of_party(*party, *now),
            Move::Cancel(party) => Event::of_cancel(*party),
            Move::Back(_) => Event::giving_up(gone_back(is_closed, Why::NoHandle)),
            Move::Take(_) => Event::giving_up(Why::Taken),
            Move::Close => Event::of_owner(Owner::Close, Why::Closed),
            Move::DropHandle => Event::giving_up(Why::NoHandle),
            _ => Event::new(),
        }
    }

    /// Notes the reply. An object that an add has handed in and that was refused is given up as the add has ended.
    pub fn note_unmanaged(&mut self, reply: &unmanaged::Reply<u64>) {
        use unmanaged::Reply;
        match reply {
            Reply::Started(party) => self.party = Some(*party),
            Reply::Failed(cause) => self.end = Some(why_plain(cause)),
            Reply::Refused(cause, _) => {
                self.end = Some(why_plain(cause));
                self.gone = why_plain(cause);
            }
            _ => {}
        }
    }
}

// Why an object is given up that came back.
fn gone_back(is_closed: bool, open: Why) -> Why {
    if is_closed { Why::Closed } else { open }
}

fn why_failed<E>(cause: &PoolError<E>) -> Why {
    match cause {
        PoolError::Timeout(_) => Why::Late,
        PoolError::Backend(_) | PoolError::PostCreateHook(_) => Why::Refused,
        PoolError::Closed => Why::Closed,
        PoolError::Crowded => Why::Crowded,
        PoolError::NoRuntimeSpecified => Why::NoRuntime,
        PoolError::OutOfMemory => Why::NoMemory,
        PoolError::NumbersExhausted => Why::NoNumber,
    }
}

fn why_plain(cause: &plain::PoolError) -> Why {
    match cause {
        plain::PoolError::Timeout => Why::Late,
        plain::PoolError::Closed => Why::Closed,
        plain::PoolError::Crowded => Why::Crowded,
        plain::PoolError::NoRuntimeSpecified => Why::NoRuntime,
        plain::PoolError::OutOfMemory => Why::NoMemory,
    }
}
