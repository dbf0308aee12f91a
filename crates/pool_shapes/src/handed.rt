//! Whose place goes to whom, from one move to the next.
ghost use Rattle.std.specs.Prelude.{◌≡◌, ◌↔◌, IfSome, IsTrue};
ghost use Rattle.pool_shapes.specs.Handed.{has_place, has_ended, WasGranted, GaveUp, Between};

use crate::marks::{Shape, Stage};

/// A place goes from one party to another.
#[derive(Clone, Copy, Debug)]
pub struct Handover {
    pub from: usize,
    pub to: usize,
}

/// A party that has given its place up in this step, and one that was granted in it what it waited for.
pub fn handed_over(was: &[Shape], is: &[Shape]) -> Option<Handover>
    ensures from { IfSome result (λ h. Between GaveUp was.now is.now h.from) }
    ensures to { IfSome result (λ h. Between WasGranted was.now is.now h.to) }
{
    let to = granted_in(was, is)?;
    let from = given_up_in(was, is)?;
    Some(Handover { from, to })
}

fn granted_in(was: &[Shape], is: &[Shape]) -> Option<usize>
    ensures { IfSome result (λ party. Between WasGranted was.now is.now party) }
{
    for party in 0..was.len().min(is.len()) {
        if is_granted(was[party], is[party]) {
            return Some(party);
        }
    }
    None
}

fn given_up_in(was: &[Shape], is: &[Shape]) -> Option<usize>
    ensures { IfSome result (λ party. Between GaveUp was.now is.now party) }
{
    for party in 0..was.len().min(is.len()) {
        if has_given_up(was[party], is[party]) {
            return Some(party);
        }
    }
    None
}

/// Whether a party waited, and was granted what it waited for.
pub fn is_granted(was: Shape, is: Shape) -> bool
    ensures { IsTrue result ↔ WasGranted was is }
{
    was.stage == Stage::Queued && is.stage == Stage::Granted
}

/// Whether a party had a place or an object, and has ended.
pub fn has_given_up(was: Shape, is: Shape) -> bool
    ensures { IsTrue result ↔ GaveUp was is }
{
    has_place(was.stage) && has_ended(is.stage)
}

/// Whether a party that stands so has a place or an object.
pub fn has_place(stage: Stage) -> bool
    ensures { result ≡ has_place stage }
{
    match stage {
        Stage::Granted | Stage::Going | Stage::Creating => true,
        Stage::Recycling | Stage::Checking | Stage::Holding => true,
        Stage::New | Stage::Queued | Stage::Ended | Stage::Cancelled => false,
    }
}

/// Whether a party that stands so has ended.
pub fn has_ended(stage: Stage) -> bool
    ensures { result ≡ has_ended stage }
{
    match stage {
        Stage::Ended | Stage::Cancelled => true,
        _ => false,
    }
}
