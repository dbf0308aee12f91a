//! Plays a script, and draws it.
mod moves;

use crate::kept_for::KeptFor;
use crate::objects::{show_objects, show_unmanaged_objects};
use crate::story::write_story;
use crate::{Arrow, Column, Event, Kind, Owner, Picture, Stop, is_out_of_memory};
use futures::task::{Context, Doorbell, Solo};
use moves::{play_managed, play_unmanaged};
use pool_scripts::{
    Answers, Fault, PARTIES, PoolLine, ScriptPool, Stopped, compare, end_line, is_skipped,
    open_pool, parse_pool, read_line, refuse, sides_of, without_line_feed,
};
use pool_shapes::marks::Shape;
use pool_shapes::{Given, Handover, handed_over, show_parties, show_unmanaged_parties};
use std::alloc::{AllocError, Global};
use std::io::{BufRead, Write};
use std::mem;
use std::random::RandomSource;

/// Plays a script to its end, and writes its picture. One that ends before is drawn up to there.
pub fn draw_script<R, B: BufRead, W: Write>(
    rt: &R,
    reader: &mut B,
    writer: &mut W,
) -> Result<(), Stopped>
where
    R: RandomSource + AllocGlobal,
{
    let Ok(task) = Solo::new(rt, Doorbell::spinning()) else {
        return Err(Stopped::from(Fault::OutOfMemory));
    };
    let answers = Answers::new(rt.alloc());
    let mut drawing = Drawing::new(rt.alloc(), &answers);
    let mut cx = task.begin();
    let ending = read_all(&mut drawing, reader, &mut cx);
    cx.cancel();
    if is_out_of_memory(&ending) {
        return ending;
    }
    write_story(rt.alloc(), &drawing.picture, writer)?;
    ending
}

fn read_all<B: BufRead>(
    drawing: &mut Drawing<'_>,
    reader: &mut B,
    cx: &mut Context<'_>,
) -> Result<(), Stopped> {
    let mut bytes = Vec::new(drawing.alloc);
    for number in 1..=u64::MAX {
        if !read_line(reader, &mut bytes)? {
            return Ok(());
        }
        let (line, written) = sides_of(without_line_feed(&bytes));
        if let Err(stop) = drawing.draw_line(number, line, cx) {
            drawing
                .picture
                .note(drawing.alloc, number, line, stop.why())?;
            return Err(stop.at(number));
        }
        if let Some(written) = written {
            compare(drawing.alloc, number, written, drawing.reply.as_str())?;
        }
    }
    Err(Stopped::from(Fault::InputFailed))
}

// A script that is drawn while it is played.
#[derive(Drop)]
struct Drawing<'a> {
    alloc: Global,
    answers: &'a Answers,
    pool: Option<ScriptPool<'a>>,
    given: Given,
    kept_for: KeptFor,
    picture: Picture,
    reply: String,
    is_closed: bool,
    // Written anew for each line.
    column: Column,
    // How each party stood after the line before.
    earlier: Vec<Shape>,
}

impl<'a> Drawing<'a> {
    fn new(alloc: Global, answers: &'a Answers) -> Self {
        Drawing {
            alloc,
            answers,
            pool: None,
            given: Given::new(alloc),
            kept_for: KeptFor::new(alloc),
            picture: Picture::new(alloc, Kind::Managed),
            reply: String::new(alloc),
            is_closed: false,
            column: Column::new(alloc),
            earlier: Vec::new(alloc),
        }
    }

    // Does what a line says, and adds its column.
    fn draw_line(&mut self, number: u64, line: &[u8], cx: &mut Context<'_>) -> Result<(), Stop> {
        self.reply.clear();
        if is_skipped(line) {
            return self.skip(line);
        }
        if !self.picture.has_room() {
            return Err(Stop::TooMuch);
        }
        let mut event = self.play(line, cx)?;
        event.line = number;
        if event.owner == Owner::Close && self.reply.as_str() != "no handle\n" {
            self.is_closed = true;
        }
        self.add_column(event, line)
    }

    // A comment before the pool is what the picture is of. No other has a place.
    fn skip(&mut self, line: &[u8]) -> Result<(), Stop> {
        if !line.is_empty() && self.pool.is_none() {
            self.picture.add_comment(self.alloc, line)?;
        }
        Ok(())
    }

    fn play(&mut self, line: &[u8], cx: &mut Context<'_>) -> Result<Event, Stop> {
        let Drawing {
            alloc,
            answers,
            pool,
            given,
            picture,
            reply,
            is_closed,
            ..
        } = self;
        match pool {
            None => open(pool, picture, *alloc, answers, line, reply),
            Some(ScriptPool::Managed(trial)) => {
                let told = (*alloc, *answers);
                play_managed(trial, given, *is_closed, told, line, cx, reply)
            }
            Some(ScriptPool::Unmanaged(trial)) => {
                play_unmanaged(trial, given, *is_closed, line, reply)
            }
        }
    }

    fn add_column(&mut self, event: Event, line: &[u8]) -> Result<(), Stop> {
        let Drawing {
            alloc,
            pool,
            given,
            kept_for,
            picture,
            reply,
            column,
            earlier,
            ..
        } = self;
        let Some(pool) = pool else {
            picture.set_aside(*alloc, event.line, line, reply.as_str())?;
            return Ok(());
        };
        mem::swap(&mut column.shapes, earlier);
        column.event = event;
        show(pool, given, kept_for, picture.first_object, column)?;
        note_arrow(picture, column.stock.granted, earlier, &column.shapes)?;
        picture.add_column(*alloc, column)?;
        Ok(())
    }
}

// If a party has given its place up, and another was granted one, an arrow joins them.
fn note_arrow(
    picture: &mut Picture,
    granted: usize,
    was: &[Shape],
    is: &[Shape],
) -> Result<(), AllocError> {
    // (a look at all of them is not needed otherwise)
    if granted == 0 {
        return Ok(());
    }
    if let Some(Handover { from, to }) = handed_over(was, is) {
        let column = picture.columns();
        picture.arrows.push(Arrow { column, from, to })?;
    }
    Ok(())
}

// What stands in the column of a pool as it is now.
fn show(
    pool: &mut ScriptPool<'_>,
    given: &Given,
    kept_for: &mut KeptFor,
    first: usize,
    column: &mut Column,
) -> Result<(), Stop> {
    let Column {
        stock,
        shapes,
        places,
        limit,
        ..
    } = column;
    match pool {
        ScriptPool::Managed(trial) => {
            show_parties(trial, given.as_slice(), shapes)?;
            *limit = trial.counts().limit;
            *stock = show_objects(trial, first, shapes, places)?;
        }
        ScriptPool::Unmanaged(trial) => {
            show_unmanaged_parties(trial, given.as_slice(), shapes)?;
            *limit = trial.counts().limit;
            *stock = show_unmanaged_objects(trial, shapes, places)?;
        }
    }
    kept_for.follow(shapes, places)?;
    Ok(())
}

// Makes the pool that a line asks for. One that is refused leaves the script without a pool.
fn open<'a>(
    pool: &mut Option<ScriptPool<'a>>,
    picture: &mut Picture,
    alloc: Global,
    answers: &'a Answers,
    line: &[u8],
    reply: &mut String,
) -> Result<Event, Stop> {
    let said = parse_pool(alloc, line)?;
    let (kind, first) = match &said {
        PoolLine::Managed(pool) => (Kind::Managed, pool.first_number),
        PoolLine::Unmanaged(_) => (Kind::Unmanaged, 0),
    };
    match open_pool(alloc, answers, PARTIES, said) {
        Ok(opened) => {
            *pool = Some(opened);
            picture.kind = kind;
            picture.first_object = first;
            reply.push_str("ok")?;
            end_line(reply)?;
        }
        Err(refusal) => refuse(refusal, reply)?,
    }
    Ok(Event::new())
}
