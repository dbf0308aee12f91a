//! The title, the sentence below it, what the colours mean, and at the foot what is said of lines that were refused.
use super::frame::{BAR, DOWN, Frame, ROW, SMALL};
use super::paint::{STYLE, class_of};
use crate::letters::{width_of, wrapped};
use crate::{Kind, Line, Picture, Svg};
use std::alloc::{AllocError, Global};

const MARGIN: usize = 16;

// How high a line of the title is, and how great its letters are.
const TITLE_ROW: usize = 32;

const TITLE: usize = 27;

const LETTERS: usize = 16;

// How wide the sign of an entry of the legend is.
const SIGN: usize = 24;

/// What stands above the chart.
#[derive(Drop)]
pub struct Head {
    title: Vec<String>,
    sentence: Vec<String>,
    // The legend: the class of each entry and its words, and where it stands.
    legend: Vec<Entry>,
    legend_rows: usize,
    notes: Vec<String>,
}

// An entry of the legend.
#[derive(Clone, Copy)]
struct Entry {
    class: &'static str,
    words: &'static str,
    x: usize,
    row: usize,
}

impl Head {
    /// That of a picture of this width.
    pub fn of(alloc: Global, picture: &Picture, width: usize) -> Result<Head, AllocError> {
        let room = width.saturating_sub(2 * MARGIN);
        let title = match picture.comments.first() {
            Some(comment) => wrapped(alloc, comment.as_str(), TITLE, room)?,
            None => wrapped(alloc, picture.kind.title(), TITLE, room)?,
        };
        let sentence = wrapped(alloc, sentence_of(alloc, picture)?.as_str(), LETTERS, room)?;
        let mut head = Head {
            title,
            sentence,
            legend: Vec::new(alloc),
            legend_rows: 0,
            notes: Vec::new(alloc),
        };
        head.add_legend(picture, width)?;
        for line in &picture.lines {
            head.add_note(alloc, line, room)?;
        }
        Ok(head)
    }

    /// How high it is.
    pub fn height(&self) -> usize {
        let title = self.title.len().saturating_mul(TITLE_ROW);
        let sentence = self.sentence.len().saturating_mul(ROW);
        let legend = self.legend_rows.saturating_mul(ROW + 4);
        title
            .saturating_add(sentence)
            .saturating_add(legend)
            .saturating_add(24)
    }

    fn add_legend(&mut self, picture: &Picture, width: usize) -> Result<(), AllocError> {
        let (mut x, mut row) = (MARGIN, 0usize);
        for class in CLASSES {
            if !is_used(picture, class) {
                continue;
            }
            let words = meaning_of(picture.kind, class);
            let wide = width_of(words, LETTERS).saturating_add(SIGN + 20);
            if x.saturating_add(wide) > width {
                x = MARGIN;
                row = row.saturating_add(1);
            }
            self.legend.push(Entry {
                class,
                words,
                x,
                row,
            })?;
            x = x.saturating_add(wide);
        }
        self.legend_rows = if self.legend.is_empty() {
            0
        } else {
            row.saturating_add(1)
        };
        Ok(())
    }

    // A line that has no column, and why.
    fn add_note(&mut self, alloc: Global, line: &Line, room: usize) -> Result<(), AllocError> {
        let Line {
            number,
            text,
            reply,
            ..
        } = line;
        let note = format!(in alloc; "line {number}: {text} → {reply}")?;
        for part in wrapped(alloc, note.as_str(), SMALL, room)? {
            self.notes.push(part)?;
        }
        Ok(())
    }

    /// How many rows the notes have.
    pub fn notes(&self) -> usize {
        self.notes.len()
    }

    /// Writes the notes at the foot.
    pub fn write_notes(&self, svg: &mut Svg, frame: &Frame) -> Result<(), AllocError> {
        for (at, note) in self.notes.iter().enumerate() {
            svg.words("e", MARGIN, frame.note_y(at), note.as_str())?;
        }
        Ok(())
    }

    /// Begins the picture, and writes it.
    pub fn write(&self, svg: &mut Svg, frame: &Frame) -> Result<(), AllocError> {
        svg.open(frame.width(), frame.height())?;
        svg.raw("<title>")?;
        for (at, line) in self.title.iter().enumerate() {
            svg.raw(if at > 0 { " " } else { "" })?;
            svg.escaped(line.as_str())?;
        }
        svg.raw("</title>\n")?;
        svg.raw(STYLE)?;
        svg.raw("<rect class=\"bg\" width=\"100%\" height=\"100%\"/>\n")?;
        let mut y = 10usize;
        for line in &self.title {
            y = y.saturating_add(TITLE_ROW);
            svg.words("T", MARGIN, y.saturating_sub(6), line.as_str())?;
        }
        for line in &self.sentence {
            y = y.saturating_add(ROW);
            svg.words("s", MARGIN, y.saturating_sub(4), line.as_str())?;
        }
        for entry in &self.legend {
            let y = y
                .saturating_add(entry.row.saturating_mul(ROW + 4))
                .saturating_add(6);
            write_entry(svg, *entry, y)?;
        }
        Ok(())
    }
}

fn write_entry(svg: &mut Svg, entry: Entry, y: usize) -> Result<(), AllocError> {
    let Entry {
        class,
        words,
        x,
        ..
    } = entry;
    let middle = y.saturating_add(BAR / 2);
    match class {
        "L" => svg.rule(class, x, middle, SIGN)?,
        "w" => {
            svg.rule(class, x, middle, SIGN - 6)?;
            let end = x.saturating_add(SIGN);
            svg.path("W", format_args!("M{end} {middle}l-8 -5v10z"))?;
        }
        _ => svg.bar(class, x, y.saturating_add(2), SIGN, BAR - 4)?,
    }
    svg.words(
        "s",
        x.saturating_add(SIGN + 8),
        y.saturating_add(DOWN),
        words,
    )
}

// The classes of marks in the order of the legend: of bars, of an arrow and of the limit.
const CLASSES: [&'static str; 11] = ["n", "q", "g", "c", "r", "k", "h", "i", "f", "w", "L"];

// What a class means.
fn meaning_of(kind: Kind, class: &str) -> &'static str {
    match class {
        "n" => "not asked yet",
        "q" => "waits",
        "g" if matches!(kind, Kind::Unmanaged | Kind::UnmanagedJournal) => "may go on",
        "g" => "has a place",
        "c" => "creates",
        "r" => "prepares",
        "k" => "checks",
        "h" if kind.is_journal() => "objects",
        "h" => "has an object",
        "i" => "idle",
        "f" => "free, kept for a get",
        "w" => "gives its place on",
        _ => "limit",
    }
}

// Whether a picture has marks of this class.
fn is_used(picture: &Picture, class: &str) -> bool {
    match class {
        "L" => true,
        "w" => !picture.arrows.is_empty(),
        "i" => has_idle(picture),
        "f" => has_kept(picture),
        "h" | "q" | "g" if picture.kind.is_journal() => true,
        class => has_stage(picture, class),
    }
}

fn has_idle(picture: &Picture) -> bool {
    let Some(lane) = picture.stock.lane_at(0) else {
        return false;
    };
    (0..lane.len()).any(|at| lane.mark_at(at).map_or(false, |mark| mark.shows.idle > 0))
}

fn has_kept(picture: &Picture) -> bool {
    for object in 0..picture.objects.len() {
        if let Some(lane) = picture.objects.lane_at(object) {
            for at in 0..lane.len() {
                if let Some(mark) = lane.mark_at(at) {
                    if mark.shows.kept_for.is_some() {
                        return true;
                    }
                }
            }
        }
    }
    false
}

fn has_stage(picture: &Picture, class: &str) -> bool {
    for party in 0..picture.parties.len() {
        if let Some(lane) = picture.parties.lane_at(party) {
            for at in 0..lane.len() {
                if let Some(mark) = lane.mark_at(at) {
                    if class_of(mark.shows.stage) == class {
                        return true;
                    }
                }
            }
        }
    }
    false
}

// The comments behind the first, as one text. Without them, what any such picture shows.
fn sentence_of(alloc: Global, picture: &Picture) -> Result<String, AllocError> {
    let mut text = String::new(alloc);
    for comment in picture.comments.iter().skip(1) {
        if !text.is_empty() && !comment.is_empty() {
            text.push(' ')?;
        }
        text.push_str(comment.as_str())?;
    }
    if text.is_empty() {
        text.push_str(what_is_shown(picture.kind))?;
    }
    Ok(text)
}

fn what_is_shown(kind: Kind) -> &'static str {
    match kind {
        Kind::Managed => "How gets and objects stand after each line of a script.",
        Kind::Unmanaged => "How gets, adds and objects stand after each line of a script.",
        Kind::Journal | Kind::UnmanagedJournal => {
            "How many objects there are, and how many wait, after each step."
        }
    }
}
