//! An unmanaged trial on which scripts are played.
use super::player::Player;
use deadpool_parts::Runtime;
use deadpool_trial::unmanaged::{Move, Reply, Trial};
use pool_scripts::{PoolLine, parse_pool, parse_unmanaged, write_unmanaged};
use std::alloc::{AllocError, Global};
use std::random::RandomSource;
use std::test::Fail;
use test_support::hoard::Hoard;

// How many gets and adds a script starts at most.
const PARTIES: usize = 9;

/// An unmanaged trial on which a script is played.
#[derive(Drop)]
pub struct UnmanagedPlayer {
    alloc: Global,
    trial: Trial<u64>,
}

impl UnmanagedPlayer {
    // A reply as a line, with the value of the object that it hands out.
    fn text_of(&self, reply: Reply<u64>) -> Result<String, AllocError> {
        let value = match &reply {
            Reply::Object(number) => self.trial.value(*number).copied(),
            _ => None,
        };
        let mut text = String::new(self.alloc);
        write_unmanaged(&mut text, &reply, value)?;
        text.push('\n')?;
        Ok(text)
    }

    // Makes one move as a list of moves. None if it has come back.
    fn run(&mut self, moves: Vec<Move<u64>>) -> Option<Reply<u64>> {
        let mut replies = self.trial.run(moves).ok()?;
        replies.pop()
    }
}

impl Player for UnmanagedPlayer {
    fn open<R: RandomSource + AllocGlobal>(rt: &R, line: &'static str) -> Result<Self, Fail> {
        let alloc = rt.alloc();
        let (max_size, max_waiting, runtime) = opening_of(alloc, line)?;
        let trial = Trial::new(alloc, max_size, runtime, PARTIES)?.bounded(max_waiting);
        Ok(UnmanagedPlayer { alloc, trial })
    }

    fn open_short<R: RandomSource + AllocGlobal>(
        rt: &R,
        line: &'static str,
        hoard: &mut Hoard,
        left: usize,
    ) -> Result<Option<Self>, Fail> {
        let alloc = rt.alloc();
        let (max_size, max_waiting, runtime) = opening_of(alloc, line)?;
        hoard.take(left)?;
        let opened = Trial::new(alloc, max_size, runtime, PARTIES);
        hoard.let_go();
        let Ok(trial) = opened else {
            return Ok(None);
        };
        let trial = trial.bounded(max_waiting);
        Ok(Some(UnmanagedPlayer { alloc, trial }))
    }

    fn play(&mut self, line: &'static str) -> Result<String, Fail> {
        let reply = self.trial.make(move_of(line)?);
        Ok(self.text_of(reply)?)
    }

    fn cancel(&mut self, party: &str) -> Result<(), Fail> {
        match party.parse::<usize>() {
            Ok(party) => {
                self.trial.make(Move::Cancel(party));
                Ok(())
            }
            Err(_) => Err(Fail::new("not a party")),
        }
    }

    fn play_short(
        &mut self,
        line: &'static str,
        hoard: &mut Hoard,
        left: usize,
    ) -> Result<Option<String>, Fail> {
        let moves = vec![in self.alloc; move_of(line)?]?;
        hoard.take(left)?;
        let reply = self.run(moves);
        hoard.let_go();
        match reply {
            None => Ok(None),
            Some(reply) => Ok(Some(self.text_of(reply)?)),
        }
    }
}

// What a pool line says: for how many objects, how many may wait, and whether timeouts are served.
fn opening_of(alloc: Global, line: &str) -> Result<(usize, Option<usize>, Option<Runtime>), Fail> {
    match parse_pool(alloc, line.as_bytes()) {
        Ok(PoolLine::Unmanaged(pool)) => Ok((pool.max_size, pool.max_waiting, pool.runtime)),
        _ => Err(Fail::new("not an unmanaged pool")),
    }
}

// The move that a line says.
fn move_of(line: &str) -> Result<Move<u64>, Fail> {
    match parse_unmanaged(line.as_bytes()) {
        Ok(next) => Ok(next),
        Err(_) => Err(Fail::new("not a move")),
    }
}
