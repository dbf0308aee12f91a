//! A managed trial on which scripts are played.
use super::player::Player;
use super::told::{SharedAnswers, Told, ToldHook, hook_of, manager_of, no_answers};
use deadpool_builder::PoolBuilder;
use deadpool_managed::{BuildError, NoHook};
use deadpool_trial::{Move, Reply, Trial};
use futures::test::MockTask;
use pool_scripts::{
    Answer, Kind, ManagedLine, ManagedPool, PoolLine, Refused, Settings, parse_managed, parse_pool,
    write_managed,
};
use std::alloc::{AllocError, Global};
use std::random::RandomSource;
use std::test::Fail;
use test_support::builders::added;
use test_support::hoard::Hoard;

// How many gets a script starts at most.
const PARTIES: usize = 9;

type Builder = PoolBuilder<Told, NoHook, ToldHook, ()>;

/// A managed trial on which a script is played.
#[derive(Drop)]
pub struct ManagedPlayer {
    alloc: Global,
    answers: SharedAnswers,
    task: MockTask,
    trial: Trial<Told, NoHook, ToldHook, ()>,
}

impl ManagedPlayer {
    fn new<R: RandomSource + AllocGlobal>(
        rt: &R,
        answers: SharedAnswers,
        trial: Trial<Told, NoHook, ToldHook, ()>,
    ) -> Result<Self, Fail> {
        Ok(ManagedPlayer {
            alloc: rt.alloc(),
            answers,
            task: MockTask::new(rt)?,
            trial,
        })
    }

    fn make(&mut self, next: Move<u64>) -> Reply<u64, Refused> {
        let ManagedPlayer { task, trial, .. } = self;
        task.enter(|cx| trial.make(next, cx))
    }

    // Makes one move as a list of moves. None if it has come back.
    fn run(&mut self, moves: Vec<Move<u64>>) -> Option<Reply<u64, Refused>> {
        let ManagedPlayer { task, trial, .. } = self;
        let mut replies = task.enter(|cx| trial.run(moves, cx)).ok()?;
        replies.pop()
    }

    // A reply as a line, with the value of the object that it hands out.
    fn text_of(&self, reply: Reply<u64, Refused>) -> Result<String, AllocError> {
        let value = match &reply {
            Reply::Object(number) => self.trial.value(*number).copied(),
            _ => None,
        };
        let mut text = String::new(self.alloc);
        write_managed(&mut text, &reply, value)?;
        text.push('\n')?;
        Ok(text)
    }

    // Hears how polls of a kind are to be answered.
    fn hear(&self, kind: Kind, answers: Vec<Answer>) -> Result<String, AllocError> {
        self.answers.append(kind, answers)?;
        String::from_str(self.alloc, "ok\n")
    }
}

impl Player for ManagedPlayer {
    fn open<R: RandomSource + AllocGlobal>(rt: &R, line: &'static str) -> Result<Self, Fail> {
        let answers = no_answers(rt.alloc())?;
        let (builder, first_number) = builder_of(rt.alloc(), &answers, line)?;
        let trial = Trial::new(builder, PARTIES, first_number)?;
        ManagedPlayer::new(rt, answers, trial)
    }

    fn open_short<R: RandomSource + AllocGlobal>(
        rt: &R,
        line: &'static str,
        hoard: &mut Hoard,
        left: usize,
    ) -> Result<Option<Self>, Fail> {
        let answers = no_answers(rt.alloc())?;
        let (builder, first_number) = builder_of(rt.alloc(), &answers, line)?;
        hoard.take(left)?;
        let opened = Trial::new(builder, PARTIES, first_number);
        hoard.let_go();
        match opened {
            Ok(trial) => Ok(Some(ManagedPlayer::new(rt, answers, trial)?)),
            Err(BuildError::OutOfMemory) => Ok(None),
            Err(_) => Err(Fail::new("no pool")),
        }
    }

    fn play(&mut self, line: &'static str) -> Result<String, Fail> {
        match said_by(self.alloc, line)? {
            ManagedLine::Answer(kind, answers) => Ok(self.hear(kind, answers)?),
            ManagedLine::Move(next) => {
                let reply = self.make(next);
                Ok(self.text_of(reply)?)
            }
        }
    }

    fn cancel(&mut self, party: &str) -> Result<(), Fail> {
        match party.parse::<usize>() {
            Ok(party) => {
                self.make(Move::Cancel(party));
                Ok(())
            }
            Err(_) => Err(Fail::new("not a party")),
        }
    }

    fn play_short(
        &mut self,
        line: &'static str,
        hoard: &mut Hoard,
        left: usize,
    ) -> Result<Option<String>, Fail> {
        let next = match said_by(self.alloc, line)? {
            ManagedLine::Answer(kind, answers) => return Ok(Some(self.hear(kind, answers)?)),
            ManagedLine::Move(next) => next,
        };
        let moves = vec![in self.alloc; next]?;
        hoard.take(left)?;
        let reply = self.run(moves);
        hoard.let_go();
        match reply {
            None => Ok(None),
            Some(reply) => Ok(Some(self.text_of(reply)?)),
        }
    }
}

fn said_by(alloc: Global, line: &str) -> Result<ManagedLine, Fail> {
    match parse_managed(alloc, line.as_bytes()) {
        Ok(said) => Ok(said),
        Err(_) => Err(Fail::new("not a line")),
    }
}

// What a pool line says: a pool with a hook of each kind, and the number of its first object.
fn builder_of(
    alloc: Global,
    answers: &SharedAnswers,
    line: &'static str,
) -> Result<(Builder, usize), Fail> {
    let Ok(PoolLine::Managed(pool)) = parse_pool(alloc, line.as_bytes()) else {
        return Err(Fail::new("not a managed pool"));
    };
    let ManagedPool {
        settings,
        runtime,
        first_number,
    } = pool;
    let Settings::Known(config) = settings else {
        return Err(Fail::new("a configuration to be read"));
    };
    let mut builder = told_builder(alloc, answers)?.config(config);
    if let Some(runtime) = runtime {
        builder = builder.runtime(runtime);
    }
    Ok((builder, first_number))
}

fn told_builder(alloc: Global, answers: &SharedAnswers) -> Result<Builder, Fail> {
    let builder = PoolBuilder::new(alloc, manager_of(answers)?, ());
    let builder = added(builder.post_create(hook_of(answers, Kind::PostCreate)?))?;
    let builder = added(builder.pre_recycle(hook_of(answers, Kind::PreRecycle)?))?;
    added(builder.post_recycle(hook_of(answers, Kind::PostRecycle)?))
}
