//! Writes where a place goes from one party to another.
use super::frame::{BAR, Frame};
use crate::{Arrow, Svg};
use std::alloc::AllocError;

// How far the point of an arrow is from its end.
const POINT: usize = 8;

/// Writes an arrow: from the end of one party's bar to the bar of another that begins there.
pub fn write_arrow(svg: &mut Svg, frame: &Frame, arrow: Arrow) -> Result<(), AllocError> {
    let x = frame.x_of(arrow.column);
    let (from, to) = (frame.party_y(arrow.from), frame.party_y(arrow.to));
    let start = from.saturating_add(BAR / 2);
    let line = x.saturating_add(4);
    if from < to {
        let end = to.saturating_sub(1);
        let back = end.saturating_sub(POINT);
        svg.path("w", format_args!("M{x} {start}h1q3 0 3 3V{back}"))?;
        svg.path("W", format_args!("M{line} {end}l-5 -{POINT}h10z"))
    } else {
        let end = to.saturating_add(BAR + 1);
        let back = end.saturating_add(POINT);
        svg.path("w", format_args!("M{x} {start}h1q3 0 3 -3V{back}"))?;
        svg.path("W", format_args!("M{line} {end}l-5 {POINT}h10z"))
    }
}
