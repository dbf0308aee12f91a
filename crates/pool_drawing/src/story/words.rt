//! Writes the words of a lane.
use super::ends::End;
use super::frame::{Frame, SMALL};
use super::passing::widest_part;
use crate::letters::width_of;
use crate::{Arrow, Svg};
use pool_shapes::marks::Shelf;
use std::alloc::{AllocError, Global};

/// The words of a lane: where their base is, and what is there already.
#[derive(Drop)]
pub struct Words<'a> {
    pub alloc: Global,
    pub svg: &'a mut Svg,
    pub frame: &'a Frame,
    /// The arrows that may pass it, if it is the lane of this party.
    pub arrows: &'a [Arrow],
    pub party: usize,
    pub y: usize,
    pub shelf: Shelf,
}

impl Words<'_> {
    /// The first of these that has room in a bar, beside the arrows there.
    pub fn write_inside(
        &mut self,
        class: &str,
        columns: (usize, usize),
        words: [&str; 3],
    ) -> Result<(), AllocError> {
        let (start, end) = widest_part(self.frame, self.arrows, self.party, columns);
        let width = end.saturating_sub(start);
        let middle = start.saturating_add(width / 2);
        for word in words {
            let half = width_of(word, SMALL) / 2;
            if word.is_empty() || half.saturating_mul(2).saturating_add(4) > width {
                continue;
            }
            let end = middle.saturating_add(half);
            if self.shelf.put(middle.saturating_sub(half), end)? {
                return self.write_word(class, middle, word);
            }
        }
        Ok(())
    }

    fn write_word(&mut self, class: &str, x: usize, word: &str) -> Result<(), AllocError> {
        let svg = &mut *self.svg;
        svg.raw("<text class=\"b ")?;
        svg.raw(class)?;
        svg.stroke("\" x=\"", x)?;
        svg.stroke("\" y=\"", self.y)?;
        svg.raw("\">")?;
        svg.escaped(word)?;
        svg.raw("</text>\n")
    }

    /// A cross where the lane ends, and why it does.
    pub fn write_end(&mut self, end: End) -> Result<(), AllocError> {
        if !self.shelf.put(end.cross, end.right())? {
            return Ok(());
        }
        let End { cross, words, why } = end;
        let top = self.y.saturating_sub(10);
        self.svg
            .path("x", format_args!("M{cross} {top}l9 9m0 -9l-9 9"))?;
        self.svg.words("e", words, self.y, why.text())
    }
}
