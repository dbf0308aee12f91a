//! Writes the story of a run: one chart, a lane for each party and each object, and arrows where a place goes from one
//! party to another.
mod arrows;
mod axis;
mod counts;
mod ends;
mod frame;
mod guides;
mod head;
mod lanes;
mod paint;
mod passing;
mod words;

use crate::{Picture, Svg};
use frame::Frame;
use guides::Guides;
use head::Head;
use pool_scripts::{Fault, write_out};
use std::alloc::Global;
use std::io::Write;

/// Writes it to its end, part by part.
pub fn write_story<W: Write>(
    alloc: Global,
    picture: &Picture,
    writer: &mut W,
) -> Result<(), Fault> {
    let lanes_width = Frame::width_for(picture);
    let head = Head::of(alloc, picture, lanes_width)?;
    let guides = Guides::of(alloc, picture)?;
    let frame = Frame::of(picture, &head, &guides);
    let mut svg = Svg::new(alloc);
    head.write(&mut svg, &frame)?;
    guides.write(&mut svg, &frame)?;
    counts::write_counts(&mut svg, &frame, picture)?;
    pass_on(&mut svg, writer)?;
    for at in 0..picture.parties.len() {
        lanes::write_party_bars(&mut svg, &frame, picture, at)?;
        pass_on(&mut svg, writer)?;
    }
    for at in 0..picture.objects.len() {
        lanes::write_object_bars(&mut svg, &frame, picture, at)?;
        pass_on(&mut svg, writer)?;
    }
    for (at, arrow) in picture.arrows.iter().enumerate() {
        arrows::write_arrow(&mut svg, &frame, *arrow)?;
        if at % 256 == 255 {
            pass_on(&mut svg, writer)?;
        }
    }
    for at in 0..picture.parties.len() {
        lanes::write_party_words(alloc, &mut svg, &frame, picture, at)?;
        pass_on(&mut svg, writer)?;
    }
    for at in 0..picture.objects.len() {
        lanes::write_object_words(alloc, &mut svg, &frame, picture, at)?;
        pass_on(&mut svg, writer)?;
    }
    axis::write_axis(alloc, &mut svg, &frame, picture)?;
    head.write_notes(&mut svg, &frame)?;
    svg.raw("</svg>\n")?;
    pass_on(&mut svg, writer)
}

// Writes what is there of the text.
fn pass_on<W: Write>(svg: &mut Svg, writer: &mut W) -> Result<(), Fault> {
    write_out(writer, svg.as_str())?;
    svg.clear();
    Ok(())
}
