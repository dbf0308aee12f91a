//! What a get tells its desk of what it holds.
ghost use Rattle.std.specs.Prelude.{Option};
ghost use Rattle.deadpool_managed.specs.Get.{Makes, IsReport, making};
ghost use Rattle.deadpool_desk.specs.Replies.{IsReplyTo, NamesOnly, needed, left_by};

use crate::Kept;
use deadpool_desk::{Desk, Reply, Step};

// A step by which no object passes.
#[inline(always)]
pub(crate) fn report<T: Drop, D: Desk<Kept<T>>>(desk: &mut D, step: &Step) -> Reply
    requires report { IsReport step.now }
    requires named { NamesOnly (D.waits desk.old) step.now }
    requires holds { D.holds desk.old (needed step.now) }
    ensures made { Makes D.Desk desk.old (making step.now result Option.None) desk.new }
    ensures fits { IsReplyTo step.now result }
    ensures holds { D.holds desk.new (left_by step.now result) }
{
    let mut hand = None;
    desk.make(step, &mut hand)
}
