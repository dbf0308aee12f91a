//! Where everything stands in a story, in points.
use super::ends::{End, end_of_object, end_of_party};
use super::guides::Guides;
use super::head::Head;
use crate::Picture;

// How wide a picture is at least.
const LEAST_WIDTH: usize = 640;

// What stands to the left of the lanes, for their names, and to their right.
pub const LEFT: usize = 104;

const RIGHT: usize = 16;

// How wide a column is.
const LEAST_UNIT: usize = 11;

const MOST_UNIT: usize = 64;

/// How far a lane is from the next, and how high a bar is.
pub const LANE: usize = 27;

pub const BAR: usize = 21;

/// How far the letters of a bar stand below its top.
pub const DOWN: usize = 16;

/// The sizes of letters.
pub const SMALL: usize = 15;

/// How far a row of words is from the next.
pub const ROW: usize = 22;

const GAP: usize = 16;

// How high a count of one is at most in the chart, and all counts.
const STEP: usize = 26;

const MOST_UP: usize = 104;

const MOST_DOWN: usize = 78;

/// Where the parts of a picture stand.
#[derive(Clone, Copy)]
pub struct Frame {
    columns: usize,
    unit: usize,
    /// How much is to the right of the lanes.
    right: usize,
    /// How high the title and the legend are, and how many rows of labels stand above the chart.
    head: usize,
    label_rows: usize,
    /// The greatest counts above the axis of the chart and below it.
    pub most_up: usize,
    pub most_down: usize,
    parties: usize,
    objects: usize,
    /// Whether moments stand below the lines.
    pub has_moments: bool,
    notes: usize,
}

impl Frame {
    /// How wide the lanes of a picture are, with their names.
    pub fn width_for(picture: &Picture) -> usize {
        LEAST_WIDTH.max(LEFT.saturating_add(picture.columns().saturating_mul(unit_of(picture))))
    }

    /// That of a picture.
    pub fn of(picture: &Picture, head: &Head, guides: &Guides) -> Frame {
        let unit = unit_of(picture);
        let (most_up, most_down) = most_of(picture);
        let mut frame = Frame {
            columns: picture.columns(),
            unit,
            right: RIGHT,
            head: head.height(),
            label_rows: guides.rows(),
            most_up,
            most_down,
            parties: picture.parties.len(),
            objects: picture.objects.len(),
            has_moments: has_moments(picture),
            notes: head.notes(),
        };
        frame.right = right_of(&frame, picture);
        frame
    }

    /// Where a column begins.
    pub fn x_of(&self, column: usize) -> usize {
        LEFT.saturating_add(column.saturating_mul(self.unit))
    }

    /// Where the middle of a column is.
    pub fn middle_of(&self, column: usize) -> usize {
        self.x_of(column).saturating_add(self.unit / 2)
    }

    /// How wide the columns from one up to, but not including, another are.
    pub fn width_of(&self, from: usize, to: usize) -> usize {
        to.saturating_sub(from).saturating_mul(self.unit)
    }

    /// Where the lanes end.
    pub fn end_x(&self) -> usize {
        self.x_of(self.columns)
    }

    pub fn width(&self) -> usize {
        LEAST_WIDTH.max(self.end_x().saturating_add(self.right))
    }

    /// Where a row of labels has its base, from the lowest.
    pub fn label_y(&self, row: usize) -> usize {
        self.guides_y()
            .saturating_sub(7)
            .saturating_sub(row.saturating_mul(ROW - 2))
    }

    /// Where the guides begin.
    pub fn guides_y(&self) -> usize {
        self.head
            .saturating_add(6)
            .saturating_add(self.label_rows.saturating_mul(ROW - 2))
    }

    fn up(&self) -> usize {
        self.most_up.saturating_mul(STEP).min(MOST_UP)
    }

    fn down(&self) -> usize {
        self.most_down.saturating_mul(STEP).min(MOST_DOWN)
    }

    /// Where the axis of the chart is.
    pub fn base(&self) -> usize {
        self.guides_y().saturating_add(6).saturating_add(self.up())
    }

    /// How high a count stands above the axis.
    pub fn up_of(&self, count: usize) -> usize {
        count.min(self.most_up).saturating_mul(self.up()) / self.most_up.max(1)
    }

    /// How deep a count stands below the axis.
    pub fn down_of(&self, count: usize) -> usize {
        count.min(self.most_down).saturating_mul(self.down()) / self.most_down.max(1)
    }

    /// Where the lane of a party begins.
    pub fn party_y(&self, party: usize) -> usize {
        self.base()
            .saturating_add(self.down())
            .saturating_add(GAP)
            .saturating_add(party.saturating_mul(LANE))
    }

    /// Where the lane of an object begins.
    pub fn object_y(&self, at: usize) -> usize {
        let gap = if self.objects > 0 { GAP } else { 0 };
        self.party_y(self.parties)
            .saturating_add(gap)
            .saturating_add(at.saturating_mul(LANE))
    }

    /// Where the axis of the lines is.
    pub fn axis_y(&self) -> usize {
        self.object_y(self.objects).saturating_add(6)
    }

    /// Where the numbers of the lines have their base.
    pub fn lines_y(&self) -> usize {
        self.axis_y().saturating_add(21)
    }

    /// Where the moments have theirs.
    pub fn moments_y(&self) -> usize {
        self.lines_y().saturating_add(ROW)
    }

    /// Where a note has its base.
    pub fn note_y(&self, at: usize) -> usize {
        let row = if self.has_moments {
            self.moments_y()
        } else {
            self.lines_y()
        };
        row.saturating_add(ROW + 5)
            .saturating_add(at.saturating_mul(ROW))
    }

    pub fn height(&self) -> usize {
        self.note_y(self.notes).saturating_sub(14)
    }
}

/// How wide a column of a picture is.
pub fn unit_of(picture: &Picture) -> usize {
    let room = LEAST_WIDTH - LEFT - RIGHT;
    (room / picture.columns().max(1)).clamp(LEAST_UNIT, MOST_UNIT)
}

// The greatest counts above the axis and below it. A limit that is far above all objects counts nothing.
fn most_of(picture: &Picture) -> (usize, usize) {
    let (mut up, mut down) = (1usize, 0usize);
    if let Some(lane) = picture.stock.lane_at(0) {
        for at in 0..lane.len() {
            if let Some(mark) = lane.mark_at(at) {
                up = up.max(mark.shows.out.saturating_add(mark.shows.idle));
                down = down.max(mark.shows.granted.saturating_add(mark.shows.waiting));
            }
        }
    }
    let within = up.saturating_mul(2).saturating_add(2);
    if let Some(lane) = picture.limit.lane_at(0) {
        for at in 0..lane.len() {
            if let Some(mark) = lane.mark_at(at) {
                if mark.shows <= within {
                    up = up.max(mark.shows);
                }
            }
        }
    }
    (up, down)
}

// Whether a line names a moment above 0.
fn has_moments(picture: &Picture) -> bool {
    picture
        .events
        .iter()
        .any(|event| event.moment.map_or(false, |moment| moment.0 > 0))
}

// How much room the reasons need that stand behind the last column.
fn right_of(frame: &Frame, picture: &Picture) -> usize {
    let mut right = RIGHT;
    for party in 0..picture.parties.len() {
        if let Some(end) = end_of_party(frame, picture, party) {
            right = right.max(beyond(frame, end));
        }
    }
    for at in 0..picture.objects.len() {
        if let Some(end) = end_of_object(frame, picture, at) {
            right = right.max(beyond(frame, end));
        }
    }
    right
}

// How far a reason stands beyond the last column.
fn beyond(frame: &Frame, end: End) -> usize {
    end.right().saturating_add(8).saturating_sub(frame.end_x())
}
