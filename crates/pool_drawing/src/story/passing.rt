//! What room the arrows leave in the lanes that they pass.
use super::frame::Frame;
use crate::Arrow;

// How much an arrow needs to the left and to the right of where its column begins.
const BEFORE: usize = 3;

const BEHIND: usize = 12;

// Whether an arrow passes the lane of a party. It begins in that of the one, and ends at the edge of the other's.
fn passes(arrow: Arrow, party: usize) -> bool {
    if arrow.from < arrow.to {
        arrow.from <= party && party < arrow.to
    } else {
        arrow.to < party && party <= arrow.from
    }
}

/// The widest part of some columns of a party's lane through which no arrow goes: where it begins, and where it ends.
pub fn widest_part(
    frame: &Frame,
    arrows: &[Arrow],
    party: usize,
    columns: (usize, usize),
) -> (usize, usize) {
    let (from, to) = columns;
    let mut start = frame.x_of(from);
    let mut widest = (start, start);
    for arrow in arrows {
        if from <= arrow.column && arrow.column < to && passes(*arrow, party) {
            let x = frame.x_of(arrow.column);
            widest = wider(widest, (start, x.saturating_sub(BEFORE)));
            start = x.saturating_add(BEHIND);
        }
    }
    wider(widest, (start, frame.x_of(to)))
}

fn wider(one: (usize, usize), other: (usize, usize)) -> (usize, usize) {
    if width_of(other) > width_of(one) {
        other
    } else {
        one
    }
}

fn width_of(part: (usize, usize)) -> usize {
    let (start, end) = part;
    end.saturating_sub(start)
}

/// Where in a party's lane there is so much room with no arrow in it: at this point, or behind arrows that are there.
pub fn free_from(
    frame: &Frame,
    arrows: &[Arrow],
    party: usize,
    start: usize,
    width: usize,
) -> usize {
    let mut start = start;
    for arrow in arrows {
        let x = frame.x_of(arrow.column);
        let is_met = x < start.saturating_add(width).saturating_add(BEFORE)
            && start < x.saturating_add(BEHIND);
        if is_met && passes(*arrow, party) {
            start = x.saturating_add(BEHIND);
        }
    }
    start
}
