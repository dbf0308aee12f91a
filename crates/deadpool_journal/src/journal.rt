//! A journal as it is handed out.
use crate::Entry;
use deadpool_desk::QueueMode;

/// A copy of a journal: the steps that a pool made since it opened, in order, each with its reply.
///
/// It is printed line by line: `opened` with the limit, the mode, the least number of idle objects and the bound on
/// those that wait, if there is one; then one entry a line, and at the end `full` if the journal is full. The last line
/// has no line end.
#[derive(Debug, Drop, PartialEq)]
pub struct Journal {
    /// The limit that the pool opened with, a number of objects.
    pub limit: usize,
    /// The mode that it opened with.
    pub mode: QueueMode,
    /// How many objects a shrink and a retain leave idle, if as many are.
    pub min_idle: usize,
    /// How many gets may wait for a place, if that is bounded.
    pub max_waiting: Option<usize>,
    pub entries: Vec<Entry>,
    /// Whether a step has found no room for its entry. Steps from there on are not among the entries.
    pub full: bool,
}
