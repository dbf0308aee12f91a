//! What a step asks of its holder and leaves it, what it lets go of, and by which ticket its waker is kept.
ghost use Rattle.std.specs.Prelude.{◌≡◌};
ghost use Rattle.deadpool_desk.specs.Replies.{IsReplyTo, left_by, needed};
ghost use Rattle.deadpool_shared.specs.Locked.{lets_go, may_wait, ticket_after, ticket_of};

use deadpool_managed::gate::Ticket;
use deadpool_managed::{Held, Reply, Step};

// Whether it is a new get that may wait.
pub fn may_wait(step: &Step) -> bool
    ensures { result ≡ may_wait step.now }
{
    match step {
        Step::Enter { wait } => *wait,
        _ => false,
    }
}

// The ticket of the get that makes it.
pub fn ticket_of(step: &Step) -> Option<Ticket>
    ensures { result ≡ ticket_of step.now }
{
    match step {
        Step::Ask { ticket, .. } => Some(*ticket),
        Step::Withdraw { ticket } => Some(*ticket),
        _ => None,
    }
}

// The ticket that the get has after this reply.
pub fn ticket_after(reply: &Reply) -> Option<Ticket>
    ensures { result ≡ ticket_after reply.now }
{
    match reply {
        Reply::Waiting(ticket) => Some(*ticket),
        _ => None,
    }
}

// Whether its holder still has to detach or to drop what it has let go of.
pub fn lets_go(step: &Step, reply: &Reply) -> bool
    ensures { result ≡ lets_go step.now reply.now }
{
    match step {
        Step::Back => *reply != Reply::Kept,
        Step::Take => matches!(reply, Reply::Taken { detach: true }),
        Step::Failed | Step::Refused | Step::Cancel(Held::Creation | Held::Object) => true,
        _ => false,
    }
}

// What its holder has before.
pub fn needed(step: &Step) -> Option<Held>
    ensures { result ≡ needed step.now }
{
    match step {
        Step::Enter { .. } | Step::Ask { .. } | Step::Withdraw { .. } => None,
        Step::Again { .. } | Step::Cancel(Held::Place) => Some(Held::Place),
        Step::Created | Step::Failed | Step::Cancel(Held::Creation) => Some(Held::Creation),
        Step::Discard | Step::Refused | Step::Back | Step::Take | Step::Cancel(Held::Object) => {
            Some(Held::Object)
        }
    }
}

// And after this reply.
pub fn left_by(step: &Step, reply: &Reply) -> Option<Held>
    requires { IsReplyTo step.now reply.now }
    ensures { result ≡ left_by step.now reply.now }
{
    match reply {
        Reply::Object { .. } | Reply::Number(_) => Some(Held::Object),
        Reply::Create => Some(Held::Creation),
        Reply::Going => Some(Held::Place),
        Reply::Done => match step {
            Step::Discard => Some(Held::Place),
            _ => None,
        },
        _ => None,
    }
}
