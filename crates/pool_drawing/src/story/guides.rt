//! What the pool's owner does: guides through all lanes, with a label above each.
use super::frame::{Frame, SMALL, unit_of};
use crate::letters::width_of;
use crate::{Owner, Picture, Svg};
use pool_shapes::marks::{Mark, Shelf};
use std::alloc::{AllocError, Global};

// How far apart two labels in a row are at least.
const APART: usize = 8;

// How many rows of labels there are at most.
const MOST_ROWS: usize = 3;

// A label above a column, and in which row it stands, from the lowest.
#[derive(Drop)]
struct Label {
    column: usize,
    row: usize,
    words: String,
}

/// The labels, and the columns that have a guide.
#[derive(Drop)]
pub struct Guides {
    labels: Vec<Label>,
    columns: Vec<usize>,
    rows: usize,
}

impl Guides {
    /// Where the limit begins and changes, and what the owner does. A label that has no room in any row is left out.
    pub fn of(alloc: Global, picture: &Picture) -> Result<Guides, AllocError> {
        let mut guides = Guides {
            labels: Vec::new(alloc),
            columns: Vec::new(alloc),
            rows: 0,
        };
        let mut shelves = Vec::new(alloc);
        for _row in 0..MOST_ROWS {
            shelves.push(Shelf::new(alloc))?;
        }
        let unit = unit_of(picture);
        for column in 0..picture.events.len() {
            if let Some(words) = words_at(alloc, picture, column)? {
                if column > 0 {
                    guides.columns.push(column)?;
                }
                guides.add(&mut shelves, column, column.saturating_mul(unit), words)?;
            }
        }
        Ok(guides)
    }

    fn add(
        &mut self,
        shelves: &mut [Shelf],
        column: usize,
        x: usize,
        words: String,
    ) -> Result<(), AllocError> {
        let end = x
            .saturating_add(width_of(words.as_str(), SMALL))
            .saturating_add(APART);
        for row in 0..shelves.len() {
            if shelves[row].put(x, end)? {
                self.rows = self.rows.max(row.saturating_add(1));
                self.labels.push(Label { column, row, words })?;
                return Ok(());
            }
        }
        Ok(())
    }

    /// How many rows of labels there are.
    pub fn rows(&self) -> usize {
        self.rows
    }

    /// Writes them.
    pub fn write(&self, svg: &mut Svg, frame: &Frame) -> Result<(), AllocError> {
        let y = frame.guides_y();
        let high = frame.axis_y().saturating_sub(y);
        for column in &self.columns {
            svg.post("d", frame.x_of(*column), y, high)?;
        }
        for label in &self.labels {
            let x = frame.x_of(label.column);
            svg.words("e", x, frame.label_y(label.row), label.words.as_str())?;
        }
        Ok(())
    }
}

// What is said above a column.
fn words_at(alloc: Global, picture: &Picture, column: usize) -> Result<Option<String>, AllocError> {
    let owner = picture.events.get(column).map(|event| event.owner);
    Ok(match owner {
        Some(Owner::Close) => Some(String::from_str(alloc, "close")?),
        Some(Owner::Retain) => Some(String::from_str(alloc, "retain")?),
        _ => match limit_from(picture, column) {
            Some(limit) => Some(format!(in alloc; "limit {limit}")?),
            None => None,
        },
    })
}

// The limit, if it begins to be this in the column.
fn limit_from(picture: &Picture, column: usize) -> Option<usize> {
    let lane = picture.limit.lane_at(0)?;
    // (the marks begin one behind the other)
    let (mut low, mut high) = (0usize, lane.len());
    for _half in 0..usize::BITS {
        if low >= high {
            return None;
        }
        let middle = low.saturating_add(high.saturating_sub(low) / 2);
        let mark: &Mark<usize> = lane.mark_at(middle)?;
        if mark.from == column {
            return Some(mark.shows);
        }
        if mark.from < column {
            low = middle.saturating_add(1);
        } else {
            high = middle;
        }
    }
    None
}
