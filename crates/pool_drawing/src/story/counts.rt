//! Writes the chart: objects above its axis, those that wait below it, and the limit as a line.
use super::frame::{Frame, LEFT};
use crate::{Kind, Picture, Stock, Svg};
use pool_shapes::marks::Lane;
use std::alloc::AllocError;

// What an area shows: from the axis up to, or down to, a count.
#[derive(Clone, Copy)]
enum Area {
    // All objects; those of them that are out cover the rest.
    Objects,
    Out,
    // All that wait; those of them that were granted a place cover the rest.
    Queue,
    Granted,
}

const AREAS: [Area; 4] = [Area::Objects, Area::Out, Area::Queue, Area::Granted];

impl Area {
    fn class(self) -> &'static str {
        match self {
            Area::Objects => "i",
            Area::Out => "h",
            Area::Queue => "q",
            Area::Granted => "g",
        }
    }

    // Where its edge is.
    fn y_of(self, frame: &Frame, stock: Stock) -> usize {
        let base = frame.base();
        let Stock {
            out,
            idle,
            granted,
            waiting,
        } = stock;
        match self {
            Area::Objects => base.saturating_sub(frame.up_of(out.saturating_add(idle))),
            Area::Out => base.saturating_sub(frame.up_of(out)),
            Area::Queue => base.saturating_add(frame.down_of(granted.saturating_add(waiting))),
            Area::Granted => base.saturating_add(frame.down_of(granted)),
        }
    }
}

/// Writes it.
pub fn write_counts(svg: &mut Svg, frame: &Frame, picture: &Picture) -> Result<(), AllocError> {
    if let Some(lane) = picture.stock.lane_at(0) {
        for area in AREAS {
            write_area(svg, frame, lane, area)?;
        }
    }
    let width = frame.end_x().saturating_sub(LEFT);
    svg.rule("a", LEFT, frame.base(), width)?;
    if let Some(limits) = picture.limit.lane_at(0) {
        write_limits(svg, frame, limits)?;
    }
    write_names(svg, frame, picture.kind)
}

// An area with a step at each change.
fn write_area(
    svg: &mut Svg,
    frame: &Frame,
    lane: &Lane<Stock>,
    area: Area,
) -> Result<(), AllocError> {
    svg.raw("<path class=\"")?;
    svg.raw(area.class())?;
    svg.stroke("\" d=\"M", LEFT)?;
    svg.stroke(" ", frame.base())?;
    for at in 0..lane.len() {
        if let Some(mark) = lane.mark_at(at) {
            svg.stroke("V", area.y_of(frame, mark.shows))?;
            svg.stroke("H", frame.x_of(mark.to))?;
        }
    }
    svg.stroke("V", frame.base())?;
    svg.raw("Z\"/>\n")
}

// The limit, if it is not far above all objects.
fn write_limits(svg: &mut Svg, frame: &Frame, limits: &Lane<usize>) -> Result<(), AllocError> {
    for at in 0..limits.len() {
        if let Some(mark) = limits.mark_at(at) {
            if mark.shows <= frame.most_up {
                let y = frame.base().saturating_sub(frame.up_of(mark.shows));
                let width = frame.width_of(mark.from, mark.to);
                svg.rule("L", frame.x_of(mark.from), y, width)?;
            }
        }
    }
    Ok(())
}

// What stands above the axis and below it, and how much at most.
fn write_names(svg: &mut Svg, frame: &Frame, kind: Kind) -> Result<(), AllocError> {
    let (x, base) = (LEFT - 10, frame.base());
    svg.words("l", x, base.saturating_sub(6), "objects")?;
    let most = frame.up_of(frame.most_up);
    if most >= 40 {
        let y = base.saturating_sub(most).saturating_add(12);
        svg.numbered("l s", x, y, "", frame.most_up as u64)?;
    }
    if frame.most_down == 0 {
        return Ok(());
    }
    svg.words("l", x, base.saturating_add(18), queue_name(kind))?;
    let deep = frame.down_of(frame.most_down);
    if deep >= 40 {
        let y = base.saturating_add(deep);
        svg.numbered("l s", x, y, "", frame.most_down as u64)?;
    }
    Ok(())
}

fn queue_name(kind: Kind) -> &'static str {
    match kind {
        Kind::Managed | Kind::Unmanaged => "waiting",
        Kind::Journal | Kind::UnmanagedJournal => "queue",
    }
}
