//! The axis below the lanes, which counts lines, and below it the moments that they name.
use super::frame::{Frame, LEFT, SMALL};
use crate::letters::width_of;
use crate::{Picture, Svg};
use pool_shapes::marks::Shelf;
use std::alloc::{AllocError, Global};

// How far apart two labels in a row are at least.
const APART: usize = 8;

// How far a line with a number may be from the next.
const STEPS: [usize; 6] = [1, 2, 5, 10, 20, 50];

// How long the sign of a line is, and that of one with a number.
const SHORT: usize = 3;

const LONG: usize = 6;

/// Writes a sign for each line, and the numbers of as many as have room; and if a line names a moment above 0, where a
/// moment is named first.
pub fn write_axis(
    alloc: Global,
    svg: &mut Svg,
    frame: &Frame,
    picture: &Picture,
) -> Result<(), AllocError> {
    svg.rule(
        "a",
        LEFT,
        frame.axis_y(),
        frame.end_x().saturating_sub(LEFT),
    )?;
    svg.words("l s", LEFT - 10, frame.lines_y(), "line")?;
    write_lines(alloc, svg, frame, picture)?;
    if frame.has_moments {
        svg.words("l s", LEFT - 10, frame.moments_y(), "moment")?;
        write_moments(alloc, svg, frame, picture)?;
    }
    Ok(())
}

// All lines have the same distance, so one in so many has its number.
fn write_lines(
    alloc: Global,
    svg: &mut Svg,
    frame: &Frame,
    picture: &Picture,
) -> Result<(), AllocError> {
    let step = step_of(alloc, frame, picture)?;
    let mut shelf = Shelf::new(alloc);
    for column in 0..picture.events.len() {
        let line = picture.events[column].line;
        let x = frame.middle_of(column);
        if line % step.max(1) > 0 {
            svg.post("a", x, frame.axis_y(), SHORT)?;
            continue;
        }
        svg.post("a", x, frame.axis_y(), LONG)?;
        let text = format!(in alloc; "{line}")?;
        write_label(svg, &mut shelf, x, frame.lines_y(), text.as_str())?;
    }
    Ok(())
}

// How far lines with numbers are apart, so that the last has room.
fn step_of(alloc: Global, frame: &Frame, picture: &Picture) -> Result<u64, AllocError> {
    let last = picture.events.last().map_or(0, |event| event.line);
    let text = format!(in alloc; "{last}")?;
    let room = width_of(text.as_str(), SMALL).saturating_add(APART);
    for step in STEPS {
        if frame.width_of(0, step) >= room {
            return Ok(step as u64);
        }
    }
    Ok(100)
}

// The moments where they are named, but not twice in a row.
fn write_moments(
    alloc: Global,
    svg: &mut Svg,
    frame: &Frame,
    picture: &Picture,
) -> Result<(), AllocError> {
    let mut shelf = Shelf::new(alloc);
    let mut last = None;
    for column in 0..picture.events.len() {
        let Some(moment) = picture.events[column].moment else {
            continue;
        };
        let now = moment.0;
        if last != Some(now) {
            last = Some(now);
            let text = format!(in alloc; "{now}")?;
            let x = frame.middle_of(column);
            write_label(svg, &mut shelf, x, frame.moments_y(), text.as_str())?;
        }
    }
    Ok(())
}

// A label, if it has room beside those to its left.
fn write_label(
    svg: &mut Svg,
    shelf: &mut Shelf,
    x: usize,
    y: usize,
    words: &str,
) -> Result<(), AllocError> {
    let half = width_of(words, SMALL).saturating_add(APART) / 2;
    if shelf.put(x.saturating_sub(half), x.saturating_add(half))? {
        svg.words("m", x, y, words)?;
    }
    Ok(())
}
