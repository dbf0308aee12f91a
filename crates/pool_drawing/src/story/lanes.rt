//! Writes the lanes of parties and objects: first all bars, and above them the words.
use super::ends::{end_of_object, end_of_party};
use super::frame::{BAR, DOWN, Frame, LEFT};
use super::paint::{class_of, class_of_object, names_object, words_of, words_of_place};
use super::words::Words;
use crate::{Kind, Picture, Svg, Whereabouts};
use pool_shapes::marks::{Mark, Place, Shape, Shelf, Stage};
use std::alloc::{AllocError, Global};

/// The bars of a party.
pub fn write_party_bars(
    svg: &mut Svg,
    frame: &Frame,
    picture: &Picture,
    party: usize,
) -> Result<(), AllocError> {
    let Some(lane) = picture.parties.lane_at(party) else {
        return Ok(());
    };
    let y = frame.party_y(party);
    for at in 0..lane.len() {
        if let Some(mark) = lane.mark_at(at) {
            let class = class_of(mark.shows.stage);
            write_bar(svg, frame, class, mark.from, mark.to, y)?;
        }
    }
    Ok(())
}

/// The bars of an object.
pub fn write_object_bars(
    svg: &mut Svg,
    frame: &Frame,
    picture: &Picture,
    at: usize,
) -> Result<(), AllocError> {
    let Some(lane) = picture.objects.lane_at(at) else {
        return Ok(());
    };
    let y = frame.object_y(at);
    for at in 0..lane.len() {
        if let Some(mark) = lane.mark_at(at) {
            let class = class_of_object(mark.shows);
            write_bar(svg, frame, class, mark.from, mark.to, y)?;
        }
    }
    Ok(())
}

// A bar, which leaves a point to the next. What has ended has none.
fn write_bar(
    svg: &mut Svg,
    frame: &Frame,
    class: &str,
    from: usize,
    to: usize,
    y: usize,
) -> Result<(), AllocError> {
    if class.is_empty() {
        return Ok(());
    }
    let width = frame.width_of(from, to).saturating_sub(1);
    svg.bar(class, frame.x_of(from), y, width, BAR)
}

/// The name of a party, the words in its bars, and why it has ended.
pub fn write_party_words(
    alloc: Global,
    svg: &mut Svg,
    frame: &Frame,
    picture: &Picture,
    party: usize,
) -> Result<(), AllocError> {
    let y = frame.party_y(party).saturating_add(DOWN);
    svg.numbered("l", LEFT - 10, y, name_of(picture, party), party as u64)?;
    let Some(lane) = picture.parties.lane_at(party) else {
        return Ok(());
    };
    let mut words = Words {
        alloc,
        svg,
        frame,
        arrows: &picture.arrows,
        party,
        y,
        shelf: Shelf::new(alloc),
    };
    for at in 0..lane.len() {
        if let Some(mark) = lane.mark_at(at) {
            write_shape(&mut words, picture.kind, mark)?;
        }
    }
    match end_of_party(frame, picture, party) {
        Some(end) => words.write_end(end),
        None => Ok(()),
    }
}

// An add has an object at first, and a get has none.
fn name_of(picture: &Picture, party: usize) -> &'static str {
    let first = picture
        .parties
        .lane_at(party)
        .and_then(|lane| lane.mark_at(0));
    match first {
        Some(mark) if mark.shows.stage == Stage::New && mark.shows.object.is_some() => "add ",
        _ => "get ",
    }
}

fn write_shape(words: &mut Words<'_>, kind: Kind, mark: &Mark<Shape>) -> Result<(), AllocError> {
    let Shape { stage, object } = mark.shows;
    let short = words_of(kind, stage);
    let class = class_of(stage);
    let columns = (mark.from, mark.to);
    match object {
        Some(number) if stage == Stage::Holding => {
            let full = format!(in words.alloc; "object {number}")?;
            let last = format!(in words.alloc; "{number}")?;
            words.write_inside(class, columns, [full.as_str(), last.as_str(), ""])
        }
        Some(number) if names_object(stage) => {
            let full = format!(in words.alloc; "{short} object {number}")?;
            words.write_inside(class, columns, [full.as_str(), short, ""])
        }
        _ => words.write_inside(class, columns, [short, "", ""]),
    }
}

/// The name of an object, the words in its bars, and why it was given up.
pub fn write_object_words(
    alloc: Global,
    svg: &mut Svg,
    frame: &Frame,
    picture: &Picture,
    at: usize,
) -> Result<(), AllocError> {
    let y = frame.object_y(at).saturating_add(DOWN);
    let number = picture.first_object.saturating_add(at);
    svg.numbered("l", LEFT - 10, y, "object ", number as u64)?;
    let Some(lane) = picture.objects.lane_at(at) else {
        return Ok(());
    };
    let mut words = Words {
        alloc,
        svg,
        frame,
        arrows: &[],
        party: 0,
        y,
        shelf: Shelf::new(alloc),
    };
    for at in 0..lane.len() {
        if let Some(mark) = lane.mark_at(at) {
            write_object(&mut words, picture, mark)?;
        }
    }
    match end_of_object(frame, picture, at) {
        Some(end) => words.write_end(end),
        None => Ok(()),
    }
}

fn write_object(
    words: &mut Words<'_>,
    picture: &Picture,
    mark: &Mark<Whereabouts>,
) -> Result<(), AllocError> {
    let Whereabouts { place, kept_for } = mark.shows;
    let class = class_of_object(mark.shows);
    let columns = (mark.from, mark.to);
    if let Some(party) = kept_for {
        return write_kept(words, class, columns, party);
    }
    // (an object is out from the line on by which a party got it)
    let party = picture.events.get(mark.from).and_then(|event| event.party);
    match party {
        Some(party) if place == Place::Out => {
            let name = name_of(picture, party);
            let full = format!(in words.alloc; "{name}{party}")?;
            words.write_inside(class, columns, [full.as_str(), "", ""])
        }
        _ => words.write_inside(class, columns, [words_of_place(place), "", ""]),
    }
}

// That an idle object is kept for a get.
fn write_kept(
    words: &mut Words<'_>,
    class: &str,
    columns: (usize, usize),
    party: usize,
) -> Result<(), AllocError> {
    let full = format!(in words.alloc; "free, kept for get {party}")?;
    let short = format!(in words.alloc; "kept for get {party}")?;
    let last = format!(in words.alloc; "get {party}")?;
    words.write_inside(
        class,
        columns,
        [full.as_str(), short.as_str(), last.as_str()],
    )
}
