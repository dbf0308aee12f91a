//! The words that a line begins with, and what each wants behind it.
use std::fmt;

/// Which lines a word begins.
#[derive(Clone, Copy, Debug, PartialEq, Eq)]
pub enum Language {
    /// Those that make a pool.
    Pools,
    /// Those over a managed pool.
    Managed,
    /// Those over an unmanaged pool.
    Unmanaged,
}

impl fmt::Display for Language {
    fn fmt<W: fmt::Write>(&self, f: &mut fmt::Formatter<W>) -> fmt::Result {
        f.write_str(match self {
            Language::Pools => "the line of a pool",
            Language::Managed => "a move of a managed pool",
            Language::Unmanaged => "a move of an unmanaged pool",
        })
    }
}

// What a word wants that stands alone.
const NOTHING: &str = "nothing behind it";

const PARTY_AND_MOMENT: &str = "a party and a moment";

/// What has to stand behind a word in a language. None if it begins no line there.
pub fn wants(language: Language, word: &str) -> Option<&'static str> {
    match language {
        Language::Pools => pools_want(word),
        Language::Managed => managed_wants(word),
        Language::Unmanaged => unmanaged_wants(word),
    }
}

fn pools_want(word: &str) -> Option<&'static str> {
    Some(match word {
        "pool" =>
            "a limit, a mode, a runtime and a first number, maybe how many stay idle, and maybe most and a number",
        "config" => "a runtime, a first number, and JSON",
        "unmanaged" => "a limit and a runtime, and maybe most and a number",
        _ => return None,
    })
}

fn managed_wants(word: &str) -> Option<&'static str> {
    Some(match word {
        "answer" => "a kind, and one answer or more",
        "start" => "nothing behind it, or three timeouts",
        "get" => "a moment",
        "advance" => PARTY_AND_MOMENT,
        "put" => "an object and a value",
        "resize" => "a limit",
        "retain" => "the numbers of objects",
        word => return either_wants(word),
    })
}

fn unmanaged_wants(word: &str) -> Option<&'static str> {
    Some(match word {
        "get" => "nothing behind it, or how long it may wait",
        "add" | "tryadd" => "a value",
        "tryget" => NOTHING,
        word => return either_wants(word),
    })
}

// The same over both kinds of pool.
fn either_wants(word: &str) -> Option<&'static str> {
    Some(match word {
        "poll" => PARTY_AND_MOMENT,
        "cancel" => "a party",
        "back" | "take" => "an object",
        "close" | "drain" | "status" | "tally" | "clone" | "drop" | "upgrade" => NOTHING,
        _ => return None,
    })
}
