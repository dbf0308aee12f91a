//! The words that the program is started with.
use crate::counting::Crowd;
use pool_scripts::{Colour, parse_number};
use std::env::Args;

// For how many entries a journal has room at most.
const MOST_ENTRIES: usize = 1_000_000;

/// What the program is to do.
#[derive(Clone, Copy, Debug, PartialEq, Eq)]
pub enum Task {
    /// Says how the program is used.
    Help,
    /// Says what a script looks like.
    HelpScript,
    /// Says which version it is.
    Version,
    /// Plays a script.
    Play,
    /// Plays a script, and compares the replies that are written in it.
    Check,
    /// Plays a script, and draws it.
    Draw,
    /// Draws a journal.
    DrawJournal,
    /// Plays a script, and says after each reply how the pool stands.
    Watch(Colour),
    /// Has threads count by one pool.
    Count(Crowd),
    /// The same, and writes the journal of the pool, which has room for so many entries.
    Journal(Crowd, usize),
    /// Puts lines into buffers. One that comes back with at most so many bytes is used again.
    Fill(usize),
}

impl Task {
    /// What the words after the program's name ask for. None if they are others than it knows.
    pub fn parse(arguments: &mut Args) -> Option<Task> {
        let Some(word) = arguments.next() else {
            return Some(Task::Play);
        };
        let task = match word.as_str() {
            "help" => return parse_help(arguments),
            "--help" => Task::Help,
            "--version" => Task::Version,
            "check" => Task::Check,
            "draw" => return parse_draw(arguments),
            "watch" => return parse_watch(arguments),
            "threads" => return parse_threads(arguments),
            "buffers" => Task::Fill(parse_number(arguments.next()?.as_str()).ok()?),
            _ => return None,
        };
        last(arguments, task)
    }
}

// The task, if no word is left.
fn last(arguments: &mut Args, task: Task) -> Option<Task> {
    match arguments.next() {
        None => Some(task),
        Some(_) => None,
    }
}

// What is explained: the language of scripts, or with no word the program.
fn parse_help(arguments: &mut Args) -> Option<Task> {
    match arguments.next() {
        None => Some(Task::Help),
        Some(word) if word.as_str() == "script" => last(arguments, Task::HelpScript),
        Some(_) => None,
    }
}

// What is drawn, a script or a journal.
fn parse_draw(arguments: &mut Args) -> Option<Task> {
    match arguments.next() {
        None => Some(Task::Draw),
        Some(word) if word.as_str() == "journal" => last(arguments, Task::DrawJournal),
        Some(_) => None,
    }
}

// Whether what is watched is coloured. What the output is, a terminal or a file, no program here can ask.
fn parse_watch(arguments: &mut Args) -> Option<Task> {
    match arguments.next() {
        None => Some(Task::Watch(Colour::None)),
        Some(word) if word.as_str() == "--colour" => last(arguments, Task::Watch(Colour::Terminal)),
        Some(_) => None,
    }
}

// How many threads, how often, and for how many entries there is room if a journal is asked for.
fn parse_threads(arguments: &mut Args) -> Option<Task> {
    let crowd = Crowd::parse(arguments)?;
    let Some(word) = arguments.next() else {
        return Some(Task::Count(crowd));
    };
    if word.as_str() != "journal" {
        return None;
    }
    let entries = parse_number(arguments.next()?.as_str()).ok()?;
    if entries > MOST_ENTRIES {
        return None;
    }
    last(arguments, Task::Journal(crowd, entries))
}
