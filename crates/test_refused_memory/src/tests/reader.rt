//! A reader that leaves a script's player too little memory at one line.
use std::io;
use std::io::{BufRead, ErrorKind, Read};
use test_support::hoard::Hoard;

/// Gives one line at each read. Before the read of one of them it takes all memory but so many bytes, and lets it go
/// with the read after that.
#[derive(Drop)]
pub struct ScarceReader<'a> {
    text: &'a [u8],
    hoard: Hoard,
    left: usize,
    // How many lines are read before that one.
    lines_before: Option<usize>,
}

impl<'a> ScarceReader<'a> {
    /// So many lines are read before the one at which so much memory is left.
    pub fn new(text: &'a [u8], hoard: Hoard, lines_before: usize, left: usize) -> Self {
        ScarceReader {
            text,
            hoard,
            left,
            lines_before: Some(lines_before),
        }
    }

    /// So much memory is left before the first line is read.
    pub fn at_the_start(text: &'a [u8], mut hoard: Hoard, left: usize) -> io::Result<Self> {
        take(&mut hoard, left)?;
        Ok(ScarceReader {
            text,
            hoard,
            left,
            lines_before: None,
        })
    }

    /// The hoard, of which all is let go.
    pub fn into_hoard(self) -> Hoard {
        let ScarceReader {
            text: _,
            mut hoard,
            left: _,
            lines_before: _,
        } = self;
        hoard.let_go();
        hoard
    }
}

// Not that there is no memory for the hoard itself, which a player takes for its own want.
fn take(hoard: &mut Hoard, left: usize) -> io::Result<()> {
    hoard
        .take(left)
        .map_err(|_| io::Error::from(ErrorKind::Other))
}

impl<'a> Read for ScarceReader<'a> {
    fn read(&mut self, buf: &mut [u8]) -> io::Result<usize> {
        let mut ahead = self.fill_buf()?;
        let count = ahead.read(buf)?;
        self.consume(count);
        Ok(count)
    }
}

impl<'a> BufRead for ScarceReader<'a> {
    fn fill_buf(&mut self) -> io::Result<&[u8]> {
        self.hoard.let_go();
        match self.lines_before {
            Some(0) => {
                self.lines_before = None;
                take(&mut self.hoard, self.left)?;
            }
            Some(lines) => self.lines_before = Some(lines.saturating_sub(1)),
            None => {}
        }
        let end = self.text.iter().position(|byte| *byte == b'\n');
        let length = end.unwrap_or(0).saturating_add(1);
        Ok(self.text.get(..length).unwrap_or(self.text))
    }

    fn consume(&mut self, amount: usize) {
        let amount = amount.min(self.text.len());
        self.text = &self.text[amount..];
    }
}
