//! Pools on which scripts are played, a line at a time.
use std::random::RandomSource;
use std::test::Fail;
use test_support::hoard::Hoard;

/// A pool on which a script is played. Each reply is a line of text.
pub trait Player: Drop {
    /// The pool of a script's first line.
    fn open<R: RandomSource + AllocGlobal>(rt: &R, line: &'static str) -> Result<Self, Fail>;

    /// The same while so much memory is left. None if it is refused for that.
    fn open_short<R: RandomSource + AllocGlobal>(
        rt: &R,
        line: &'static str,
        hoard: &mut Hoard,
        left: usize,
    ) -> Result<Option<Self>, Fail>;

    /// Plays a line, and gives its reply.
    fn play(&mut self, line: &'static str) -> Result<String, Fail>;

    /// Cancels a party.
    fn cancel(&mut self, party: &str) -> Result<(), Fail>;

    /// Plays a line as a list of one move, while so much memory is left. None if that move has come back.
    fn play_short(
        &mut self,
        line: &'static str,
        hoard: &mut Hoard,
        left: usize,
    ) -> Result<Option<String>, Fail>;
}
