//! How wide words are, and how they are broken into lines.
use std::alloc::{AllocError, Global};

/// How wide words are at most in letters of this size, in points: as in the widest of the common fonts without serifs.
pub fn width_of(words: &str, size: usize) -> usize {
    let mut thousandths = 0usize;
    for letter in words.chars() {
        thousandths = thousandths.saturating_add(thousandths_of(letter));
    }
    (thousandths.saturating_mul(size) / 1000).saturating_add(1)
}

// How wide a letter is, in thousandths of its size.
fn thousandths_of(letter: char) -> usize {
    match letter {
        'i' | 'j' | 'l' | '\'' | '|' => 300,
        ' ' | '.' | ',' | ':' | ';' => 330,
        'f' | 'r' | 't' | '(' | ')' | 'I' | '-' => 420,
        'm' | 'W' => 980,
        'w' | 'M' => 880,
        'A'..='Z' => 780,
        letter if letter.is_ascii() => 640,
        _ => 1000,
    }
}

/// The words in lines that are no wider than this, but for a word that is wider itself.
pub fn wrapped(
    alloc: Global,
    words: &str,
    size: usize,
    width: usize,
) -> Result<Vec<String>, AllocError> {
    let mut lines = Vec::new(alloc);
    let mut line = String::new(alloc);
    for word in words.split(' ') {
        let with_word = width_of(line.as_str(), size).saturating_add(width_of(word, size));
        if !line.is_empty() && with_word.saturating_add(size / 3) > width {
            lines.push(line)?;
            line = String::new(alloc);
        }
        if !line.is_empty() {
            line.push(' ')?;
        }
        line.push_str(word)?;
    }
    if !line.is_empty() {
        lines.push(line)?;
    }
    Ok(lines)
}
