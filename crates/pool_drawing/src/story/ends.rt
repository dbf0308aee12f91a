//! Where lanes end, and why.
use super::frame::{Frame, SMALL};
use super::passing::free_from;
use crate::letters::width_of;
use crate::{Arrow, Picture, Why};
use pool_shapes::marks::{Place, Stage};

// How far a cross stands behind the bar, how wide it is, and how far the reason stands behind it.
const BEHIND: usize = 5;

const CROSS: usize = 9;

const REASON: usize = 14;

/// Why a lane ends: where its cross stands, and where the words do.
#[derive(Clone, Copy)]
pub struct End {
    pub cross: usize,
    pub words: usize,
    pub why: Why,
}

impl End {
    // No arrow goes through the cross or the words.
    fn new(frame: &Frame, arrows: &[Arrow], party: usize, column: usize, why: Why) -> End {
        let x = frame.x_of(column).saturating_add(BEHIND);
        let cross = free_from(frame, arrows, party, x, CROSS);
        let x = cross.saturating_add(REASON);
        let words = free_from(frame, arrows, party, x, width_of(why.text(), SMALL));
        End { cross, words, why }
    }

    /// Where the words end, with some room behind them.
    pub fn right(self) -> usize {
        self.words
            .saturating_add(width_of(self.why.text(), SMALL))
            .saturating_add(5)
    }
}

/// That of a party in the last mark of its lane. None if it has not ended, or if its object came back.
pub fn end_of_party(frame: &Frame, picture: &Picture, party: usize) -> Option<End> {
    let (column, why) = why_ended(picture, party)?;
    Some(End::new(frame, &picture.arrows, party, column, why))
}

// In which column a party has ended, and why.
fn why_ended(picture: &Picture, party: usize) -> Option<(usize, Why)> {
    let lane = picture.parties.lane_at(party)?;
    let mark = lane.mark_at(lane.len().saturating_sub(1))?;
    if mark.shows.stage == Stage::Cancelled {
        return Some((mark.from, Why::Cancelled));
    }
    if mark.shows.stage != Stage::Ended {
        return None;
    }
    let event = picture.events.get(mark.from)?;
    if event.party == Some(party) {
        return Some((mark.from, event.end?));
    }
    None
}

/// That of an object in the last mark of its lane. None if it was not given up, or was never there.
pub fn end_of_object(frame: &Frame, picture: &Picture, at: usize) -> Option<End> {
    let lane = picture.objects.lane_at(at)?;
    let mark = lane.mark_at(lane.len().saturating_sub(1))?;
    if mark.shows.place != Place::GivenUp || lane.len() < 2 {
        return None;
    }
    let why = picture.events.get(mark.from)?.gone;
    Some(End::new(frame, &[], at, mark.from, why))
}
