//! Why a line is not in the language.
use super::forms::{Language, wants};
use std::{fmt, str};

// How many letters of a word are shown at most.
const MOST_SHOWN: usize = 40;

/// A word of a script as far as it is shown. It needs no memory.
#[derive(Clone, Copy, Debug, PartialEq, Eq)]
pub struct Excerpt {
    letters: [u8; MOST_SHOWN],
    // How many bytes the word has.
    length: usize,
}

impl Excerpt {
    /// Of this word. What is no letter, digit or sign of ASCII is shown as `?`.
    pub fn of(word: &str) -> Excerpt {
        let bytes = word.as_bytes();
        let mut letters = [b' '; MOST_SHOWN];
        for at in 0..MOST_SHOWN {
            if at < bytes.len() {
                letters[at] = shown(bytes[at]);
            }
        }
        Excerpt {
            letters,
            length: bytes.len(),
        }
    }
}

fn shown(byte: u8) -> u8 {
    if byte.is_ascii_graphic() { byte } else { b'?' }
}

impl fmt::Display for Excerpt {
    fn fmt<W: fmt::Write>(&self, f: &mut fmt::Formatter<W>) -> fmt::Result {
        for at in 0..MOST_SHOWN {
            if at < self.length {
                f.write_char(char::from(self.letters[at]))?;
            }
        }
        f.write_str(if self.length > MOST_SHOWN { ".." } else { "" })
    }
}

/// What a word has to be.
#[derive(Clone, Copy, Debug, PartialEq, Eq)]
pub enum Wanted {
    Number,
    Timeout,
    Mode,
    Runtime,
    /// A kind of answer.
    Kind,
    Answer,
    /// An answer to a creation, which has no value yet.
    CreateAnswer,
}

impl fmt::Display for Wanted {
    fn fmt<W: fmt::Write>(&self, f: &mut fmt::Formatter<W>) -> fmt::Result {
        f.write_str(match self {
            Wanted::Number => "number: decimal digits alone",
            Wanted::Timeout => "timeout: - or nanoseconds",
            Wanted::Mode => "mode: fifo or lifo",
            Wanted::Runtime => "runtime: none or clock",
            Wanted::Kind => "kind of answer: create, recycle, pre, post or postcreate",
            Wanted::Answer => "answer: ok, pending, refuse or add",
            Wanted::CreateAnswer => "answer of create: ok, pending or refuse",
        })
    }
}

/// Why a line is not in the language.
#[derive(Clone, Copy, Debug, PartialEq, Eq)]
pub enum Reason {
    /// Its bytes are no text.
    NoText,
    CarriageReturn,
    Tab,
    /// It begins or ends with a blank, or two stand side by side.
    Blank,
    /// A comment stands behind its words.
    Comment,
    /// A word is missing, or one is too many.
    Count,
    /// Behind its first word something else has to stand: this.
    Wants(Excerpt, &'static str),
    /// Its first word begins no line.
    Unknown(Excerpt),
    /// Its first word begins a line only in the first of these, and not in the second.
    Elsewhere(Excerpt, Language, Language),
    /// No pool is there yet.
    NoPool(Excerpt),
    /// A pool is there already.
    SecondPool,
    /// The word is none of these.
    IsNo(Excerpt, Wanted),
    /// The number is out of range.
    TooGreat(Excerpt),
    /// A step of a journal that is none, or stands where none does.
    NoStep,
}

impl fmt::Display for Reason {
    fn fmt<W: fmt::Write>(&self, f: &mut fmt::Formatter<W>) -> fmt::Result {
        match self {
            Reason::NoText => f.write_str("its bytes are no text"),
            Reason::CarriageReturn => f.write_str("a carriage return stands in it"),
            Reason::Tab => f.write_str("a tab stands in it: one blank parts two words"),
            Reason::Blank => f.write_str("a blank is too many: one parts two words"),
            Reason::Comment => f.write_str("a comment has a line of its own"),
            Reason::Count => f.write_str("a word is missing or too many"),
            Reason::Wants(word, wanted) => write!(f, "{word} wants {wanted}"),
            Reason::Unknown(word) => write!(f, "{word} begins no line"),
            Reason::Elsewhere(word, language, here) => {
                write!(f, "{word} begins {language}, and not {here}")
            }
            Reason::NoPool(word) => {
                write!(f, "{word} comes before the pool: pool, config or unmanaged")
            }
            Reason::SecondPool => f.write_str("there is a pool already"),
            Reason::IsNo(word, wanted) => write!(f, "{word} is no {wanted}"),
            Reason::TooGreat(word) => write!(f, "{word} is too great a number"),
            Reason::NoStep => f.write_str("no such step stands here in a journal"),
        }
    }
}

const CONFIG: &[u8] = b"config ";

impl Reason {
    /// The reason that a reader tells who sees the whole line: what is wrong with its bytes first, and what its first
    /// word wants if one is missing or too many.
    pub fn in_line(self, language: Language, line: &[u8]) -> Reason {
        let Ok(text) = str::from_utf8(words_alone(language, line)) else {
            return Reason::NoText;
        };
        if let Some(reason) = signs_of(text) {
            return reason;
        }
        let word = text.split(' ').next().unwrap_or("");
        match self {
            Reason::Count => counted(language, word),
            Reason::Unknown(_) => misplaced(language, word),
            reason => reason,
        }
    }
}

// The words of a line. The JSON of a configuration is none.
fn words_alone(language: Language, line: &[u8]) -> &[u8] {
    if language != Language::Pools || !line.starts_with(CONFIG) {
        return line;
    }
    let mut blanks = 0usize;
    for at in 0..line.len() {
        if line[at] == b' ' {
            blanks = blanks.saturating_add(1);
        }
        if blanks == 3 {
            return &line[..at];
        }
    }
    line
}

// A sign that stands where none does.
fn signs_of(text: &str) -> Option<Reason> {
    if text.contains('\r') {
        return Some(Reason::CarriageReturn);
    }
    if text.contains('\t') {
        return Some(Reason::Tab);
    }
    for word in text.split(' ') {
        if word.is_empty() {
            return Some(Reason::Blank);
        }
        if word.starts_with('#') {
            return Some(Reason::Comment);
        }
    }
    None
}

// What a word wants that has too few or too many behind it.
fn counted(language: Language, word: &str) -> Reason {
    match wants(language, word) {
        Some(wanted) => Reason::Wants(Excerpt::of(word), wanted),
        None => Reason::Count,
    }
}

// Why a word begins no line here.
fn misplaced(language: Language, word: &str) -> Reason {
    let excerpt = Excerpt::of(word);
    let (opens, managed, unmanaged) = (
        wants(Language::Pools, word).is_some(),
        wants(Language::Managed, word).is_some(),
        wants(Language::Unmanaged, word).is_some(),
    );
    match language {
        Language::Pools if opens => counted(language, word),
        Language::Pools if managed || unmanaged => Reason::NoPool(excerpt),
        Language::Managed | Language::Unmanaged if opens => Reason::SecondPool,
        Language::Managed if unmanaged => Reason::Elsewhere(excerpt, Language::Unmanaged, language),
        Language::Unmanaged if managed => Reason::Elsewhere(excerpt, Language::Managed, language),
        _ => Reason::Unknown(excerpt),
    }
}
