//! What a picture shows, before it is written.
use crate::line::comment_of;
use crate::{Event, Line, Stop, Whereabouts};
use pool_shapes::marks::{Lanes, Shape, Shown};
use std::alloc::{AllocError, Global};
use std::mem;

/// How many moves are drawn at most.
pub const MOST_COLUMNS: usize = 100_000;

/// How many objects are drawn at most.
pub const MOST_OBJECTS: usize = 1_024;

// How many comments are shown at most.
const MOST_COMMENTS: usize = 8;

// How many lines without a column are named at most.
const MOST_NOTES: usize = 12;

/// What a picture is of.
#[derive(Clone, Copy, Debug, PartialEq, Eq)]
pub enum Kind {
    Managed,
    Unmanaged,
    Journal,
    UnmanagedJournal,
}

impl Kind {
    /// Whether it is of a journal, which says nothing of parties.
    pub fn is_journal(self) -> bool {
        matches!(self, Kind::Journal | Kind::UnmanagedJournal)
    }

    /// The title of a picture without one of its own.
    pub fn title(self) -> &'static str {
        match self {
            Kind::Managed => "A run of a managed pool",
            Kind::Unmanaged => "A run of an unmanaged pool",
            Kind::Journal => "A journal of a managed pool",
            Kind::UnmanagedJournal => "A journal of an unmanaged pool",
        }
    }
}

/// What there is of a pool at one move.
#[derive(Clone, Copy, Debug, PartialEq, Eq)]
pub struct Stock {
    /// Objects that gets have, or prepare.
    pub out: usize,
    pub idle: usize,
    /// Gets and adds in the queue that were granted a place.
    pub granted: usize,
    /// And those that wait for one.
    pub waiting: usize,
}

impl Shown for Stock {
    fn is_same(self, other: Stock) -> bool {
        self == other
    }
}

/// The place of one party goes to another, from one column to the next.
#[derive(Clone, Copy, Debug)]
pub struct Arrow {
    /// The column in which the other has it.
    pub column: usize,
    pub from: usize,
    pub to: usize,
}

/// What a picture shows: lanes with a column for each move, and lines.
#[derive(Drop)]
pub struct Picture {
    pub kind: Kind,
    pub parties: Lanes<Shape>,
    pub objects: Lanes<Whereabouts>,
    /// The number of the object in the first lane.
    pub first_object: usize,
    /// One lane.
    pub limit: Lanes<usize>,
    /// One lane.
    pub stock: Lanes<Stock>,
    /// One for each column.
    pub events: Vec<Event>,
    /// By their column.
    pub arrows: Vec<Arrow>,
    /// The comments before the pool: a title, and what is said below it.
    pub comments: Vec<String>,
    /// Those that have no column and are no comment.
    pub lines: Vec<Line>,
}

/// What stands in one column, from the top.
#[derive(Drop)]
pub struct Column {
    pub event: Event,
    pub stock: Stock,
    pub shapes: Vec<Shape>,
    pub places: Vec<Whereabouts>,
    pub limit: usize,
}

impl Column {
    /// One with nothing in it.
    pub fn new(alloc: Global) -> Self {
        Column {
            event: Event::new(),
            stock: Stock {
                out: 0,
                idle: 0,
                granted: 0,
                waiting: 0,
            },
            shapes: Vec::new(alloc),
            places: Vec::new(alloc),
            limit: 0,
        }
    }
}

impl Picture {
    /// One with no columns and no lines.
    pub fn new(alloc: Global, kind: Kind) -> Self {
        Picture {
            kind,
            parties: Lanes::new(alloc),
            objects: Lanes::new(alloc),
            first_object: 0,
            limit: Lanes::new(alloc),
            stock: Lanes::new(alloc),
            events: Vec::new(alloc),
            arrows: Vec::new(alloc),
            comments: Vec::new(alloc),
            lines: Vec::new(alloc),
        }
    }

    /// Whether there is room for one column more.
    pub fn has_room(&self) -> bool {
        self.columns() < MOST_COLUMNS
    }

    /// How many columns there are.
    pub fn columns(&self) -> usize {
        self.limit.columns()
    }

    /// Adds a column. There has to be room. After a refusal the picture is of no use.
    pub fn add_column(&mut self, alloc: Global, column: &Column) -> Result<(), Stop> {
        let parties = mem::replace(&mut self.parties, Lanes::new(alloc));
        self.parties = widened(parties, &column.shapes)?;
        let objects = mem::replace(&mut self.objects, Lanes::new(alloc));
        self.objects = widened(objects, &column.places)?;
        let limit = mem::replace(&mut self.limit, Lanes::new(alloc));
        self.limit = widened(limit, &[column.limit])?;
        let stock = mem::replace(&mut self.stock, Lanes::new(alloc));
        self.stock = widened(stock, &[column.stock])?;
        self.events.push(column.event)?;
        Ok(())
    }

    /// Adds the line at which the run ended.
    pub fn note(
        &mut self,
        alloc: Global,
        number: u64,
        line: &[u8],
        why: &str,
    ) -> Result<(), AllocError> {
        self.lines.push(Line::new(alloc, number, line, why)?)?;
        Ok(())
    }

    /// Adds a comment that stands before the pool.
    pub fn add_comment(&mut self, alloc: Global, line: &[u8]) -> Result<(), AllocError> {
        if self.comments.len() < MOST_COMMENTS {
            self.comments.push(comment_of(alloc, line)?)?;
        }
        Ok(())
    }

    /// Adds a line that has no column, if there are not many.
    pub fn set_aside(
        &mut self,
        alloc: Global,
        number: u64,
        line: &[u8],
        why: &str,
    ) -> Result<(), AllocError> {
        if self.lines.len() < MOST_NOTES {
            self.lines.push(Line::new(alloc, number, line, why)?)?;
        }
        Ok(())
    }
}

// The lanes with one column more, if they have room for it.
fn widened<T: Shown + Drop>(lanes: Lanes<T>, shown: &[T]) -> Result<Lanes<T>, Stop> {
    if lanes.columns() >= MOST_COLUMNS || shown.len() < lanes.len() {
        return Err(Stop::TooMuch);
    }
    Ok(lanes.with_column(shown)?)
}
