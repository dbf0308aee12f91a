//! What gets ask of a pool, and objects that go back: one step at a time, each with its reply.
//!
//! What a step does is said as `Core` does it, by its relation. Another desk has a relation of its own, and owes
//! nothing beyond it but that the reply is one of those of the step, and that it says what its get holds.
ghost use Rattle.std.specs.Prelude.{⊤, ℕ, Option};
ghost use Rattle.deadpool_desk.specs.Replies.{Brings, IsReplyTo, IsTakenBack, Leaves, NamesOnly};
ghost use Rattle.deadpool_desk.specs.Replies.{needed, left_by};
ghost use Rattle.deadpool_desk.specs.declared.slot.Slot.{Slot};
ghost use Rattle.deadpool_desk.specs.declared.step.Held.{Held};
ghost use Rattle.deadpool_desk.specs.declared.step.Reply.{Reply};
ghost use Rattle.deadpool_desk.specs.declared.step.Step.{Step};

use crate::{Reply, Slot, Step};

/// The steps of a pool that a get or an object makes. The pool's owner makes those of `OwnerDesk`.
pub trait Desk<T> {
    // What a get holds at the desk, as far as the desk keeps it. By default it keeps nothing of it.
    ghost holds: { Self → Option Held → Type 0 } = { λ _ _. ⊤ };

    // Which objects the desk takes back, by their numbers, as far as it keeps that. By default it takes any.
    ghost takes_back: { Self → ℕ → Type 0 } = { λ _ _. ⊤ };

    // Under which tickets its get waits in the queue, as far as the desk keeps that. By default under any.
    ghost waits: { Self → ℕ → Type 0 } = { λ _ _. ⊤ };

    // It holds of a step with its reply, what was in the hand and what is in it then, and the desks before and after.
    ghost makes: { Self → Step → Option (Slot T) → Reply → Option (Slot T) → Self → Type 0 };

    /// Makes one step. The object that it takes or gives is in `hand`.
    fn make(&mut self, step: &Step, hand: &mut Option<Slot<T>>) -> Reply
        requires brings { Brings step.now hand.old }
        requires back { IsTakenBack (takes_back self.old) step.now hand.old }
        requires named { NamesOnly (waits self.old) step.now }
        requires holds { holds self.old (needed step.now) }
        ensures made { makes self.old step.now hand.old result hand.new self.new }
        ensures fits { IsReplyTo step.now result }
        ensures hand { Leaves result hand.old hand.new }
        ensures holds { holds self.new (left_by step.now result) };
}
