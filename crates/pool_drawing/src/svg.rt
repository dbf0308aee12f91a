//! The text of a picture in SVG: boxes, lines and words at whole numbers of points.
use std::alloc::{AllocError, Global};
use std::fmt;

/// The text of a picture so far.
#[derive(Drop)]
pub struct Svg {
    text: String,
}

impl Svg {
    /// No text yet.
    pub fn new(alloc: Global) -> Self {
        Svg {
            text: String::new(alloc),
        }
    }

    /// The text so far.
    pub fn as_str(&self) -> &str {
        self.text.as_str()
    }

    /// Forgets the text so far.
    pub fn clear(&mut self) {
        self.text.clear();
    }

    /// Appends text as it is.
    pub fn raw(&mut self, text: &str) -> Result<(), AllocError> {
        self.text.push_str(text)
    }

    /// Begins a picture of this size.
    pub fn open(&mut self, width: usize, height: usize) -> Result<(), AllocError> {
        write!(
            &mut self.text,
            "<svg xmlns=\"http://www.w3.org/2000/svg\" width=\"{width}\" height=\"{height}\" "
        )?;
        writeln!(
            &mut self.text,
            "viewBox=\"0 0 {width} {height}\" role=\"img\">"
        )
    }

    /// A box with round corners, of a class, which says its colours.
    pub fn bar(
        &mut self,
        class: &str,
        x: usize,
        y: usize,
        width: usize,
        height: usize,
    ) -> Result<(), AllocError> {
        writeln!(
            &mut self.text,
            "<rect class=\"{class}\" x=\"{x}\" y=\"{y}\" width=\"{width}\" height=\"{height}\" rx=\"3\"/>"
        )
    }

    /// A line that bends, by the path that is given.
    pub fn path<D: fmt::Display + Drop>(&mut self, class: &str, path: D) -> Result<(), AllocError> {
        writeln!(&mut self.text, "<path class=\"{class}\" d=\"{path}\"/>")
    }

    /// A level line of a class.
    pub fn rule(
        &mut self,
        class: &str,
        x: usize,
        y: usize,
        width: usize,
    ) -> Result<(), AllocError> {
        writeln!(
            &mut self.text,
            "<path class=\"{class}\" d=\"M{x} {y}h{width}\"/>"
        )
    }

    /// An upright line of a class.
    pub fn post(
        &mut self,
        class: &str,
        x: usize,
        y: usize,
        height: usize,
    ) -> Result<(), AllocError> {
        writeln!(
            &mut self.text,
            "<path class=\"{class}\" d=\"M{x} {y}v{height}\"/>"
        )
    }

    /// Words of a class, which says where they stand beside the point.
    pub fn words(
        &mut self,
        class: &str,
        x: usize,
        y: usize,
        words: &str,
    ) -> Result<(), AllocError> {
        write!(
            &mut self.text,
            "<text class=\"{class}\" x=\"{x}\" y=\"{y}\">"
        )?;
        self.escaped(words)?;
        self.text.push_str("</text>\n")
    }

    /// A word and a number.
    pub fn numbered(
        &mut self,
        class: &str,
        x: usize,
        y: usize,
        word: &str,
        number: u64,
    ) -> Result<(), AllocError> {
        writeln!(
            &mut self.text,
            "<text class=\"{class}\" x=\"{x}\" y=\"{y}\">{word}{number}</text>"
        )
    }

    /// Appends words, with names for the characters that mean something in a picture.
    pub fn escaped(&mut self, words: &str) -> Result<(), AllocError> {
        for letter in words.chars() {
            match letter {
                '&' => self.text.push_str("&amp;")?,
                '<' => self.text.push_str("&lt;")?,
                '>' => self.text.push_str("&gt;")?,
                '"' => self.text.push_str("&quot;")?,
                other => self.text.push(other)?,
            }
        }
        Ok(())
    }

    /// Appends part of a path: a letter and a number.
    pub fn stroke(&mut self, letter: &str, number: usize) -> Result<(), AllocError> {
        write!(&mut self.text, "{letter}{number}")
    }
}
