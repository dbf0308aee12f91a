//! Worked scripts over pools of both kinds: lines with their replies, which tests play over each thing that is a pool.
//!
//! Empty lines part the scripts of a text. The first line of each is its name, `# first-run`, the second opens its
//! pool, and behind ` => ` stands the reply to a line, as `poolrun` writes it.
mod cancelled;
mod closing;
mod configuration;
mod first_path;
mod limits;
mod max_waiting;
mod min_idle;
mod own_steps;
mod preparation;
mod tallies;
mod timeouts;
mod unmanaged;

pub use cancelled::CANCELLED;
pub use closing::{CLOSING, CLOSING_UNMANAGED};
pub use configuration::CONFIGURATION;
pub use first_path::FIRST_PATH;
pub use limits::LIMITS;
pub use max_waiting::MAX_WAITING;
pub use min_idle::MIN_IDLE;
pub use own_steps::OWN_STEPS;
pub use preparation::PREPARATION;
pub use tallies::{TALLIES, TALLIES_UNMANAGED};
pub use timeouts::TIMEOUTS;
pub use unmanaged::UNMANAGED;

/// All texts over managed pools whose lines are moves.
pub const MANAGED: [&'static str; 9] = [
    FIRST_PATH,
    PREPARATION,
    TIMEOUTS,
    CANCELLED,
    OWN_STEPS,
    MIN_IDLE,
    MAX_WAITING,
    LIMITS,
    CONFIGURATION,
];

/// The first line of a text, and those below it.
pub fn parted(text: &str) -> (&str, &str) {
    text.split_once('\n').unwrap_or((text, ""))
}

/// What a line says, and the reply to it.
pub fn sides_of(line: &str) -> (&str, &str) {
    line.split_once(" => ").unwrap_or((line, ""))
}

/// The name of a script, and its lines.
pub fn script_of(script: &str) -> (&str, &str) {
    let (heading, lines) = parted(script);
    (heading.strip_prefix("# ").unwrap_or(heading), lines)
}

/// The lines of the script of a text that has this name.
pub fn lines_of<'a>(text: &'a str, name: &str) -> Option<&'a str> {
    for script in text.split("\n\n") {
        let (found, lines) = script_of(script);
        if found == name {
            return Some(lines);
        }
    }
    None
}

/// Whether a name is one of the words of a list.
pub fn is_listed(list: &str, name: &str) -> bool {
    list.split_whitespace().any(|word| word == name)
}
