//! Each move of each script over a trial, made while too little memory is left, and what comes after it.
use super::calls::TRIES;
use super::managed_player::ManagedPlayer;
use super::player::Player;
use super::scripts;
use super::unmanaged_player::UnmanagedPlayer;
use std::alloc::Global;
use std::random::RandomSource;
use std::test::Fail;
use test_support::expected::expect;
use test_support::hoard::{Hoard, more};
use test_support::lines::{after_refusal, lines_of, party_of, refusal_of};

// How a move, or the making of a pool, ended.
#[derive(Clone, Copy, PartialEq, Eq)]
enum Ended {
    // The pool was not made.
    Unmade,
    // The move came back.
    CameBack,
    // Its reply is the refusal.
    Refused,
    Amply,
}

// What was tried, and how often memory was refused in which way.
#[derive(Clone, Copy)]
struct Tally {
    tried: usize,
    unmade: usize,
    came_back: usize,
    refused: usize,
}

impl Tally {
    fn new() -> Self {
        Tally {
            tried: 0,
            unmade: 0,
            came_back: 0,
            refused: 0,
        }
    }

    fn count(&mut self, ended: Ended) {
        match ended {
            Ended::Unmade => self.unmade = self.unmade.saturating_add(1),
            Ended::CameBack => self.came_back = self.came_back.saturating_add(1),
            Ended::Refused => self.refused = self.refused.saturating_add(1),
            Ended::Amply => self.tried = self.tried.saturating_add(1),
        }
    }

    // Memory was refused in each of the ways. Prints how often.
    fn tell<R: Print>(self, rt: &R) -> Result<(), Fail> {
        let Tally {
            tried,
            unmade,
            came_back,
            refused,
        } = self;
        let were_refused = (unmade > 0, came_back > 0, refused > 0);
        expect("pools, lists and moves", were_refused, (true, true, true))?;
        println!(rt;
            "{tried} pools and moves: {unmade} unmade, {came_back} came back, {refused} refused"
        )?;
        Ok(())
    }
}

// Plays a line, which has this reply.
fn has_reply<P: Player>(player: &mut P, line: &'static str, reply: &str) -> Result<(), Fail> {
    let played = player.play(line)?;
    expect(line, played.as_str(), reply)
}

// Plays the lines but so many, which have these replies. Those of one party find it at its end.
fn goes_on<P: Player>(
    player: &mut P,
    lines: &[&'static str],
    count: usize,
    ended: Option<&str>,
    replies: &[String],
) -> Result<(), Fail> {
    for (line, reply) in lines.iter().skip(count).zip(replies.iter()) {
        has_reply(player, *line, after_refusal(ended, line, reply.as_str()))?;
    }
    Ok(())
}

// A pool with so many lines of a script played, of which the first is the pool's.
fn played<P: Player, R: RandomSource + AllocGlobal>(
    rt: &R,
    lines: &[&'static str],
    count: usize,
) -> Result<P, Fail> {
    let mut player = P::open(rt, lines.first().copied().unwrap_or(""))?;
    for line in lines.iter().take(count).skip(1) {
        player.play(*line)?;
    }
    Ok(player)
}

// The replies to all lines but so many.
fn replies_after<P: Player>(
    alloc: Global,
    player: &mut P,
    lines: &[&'static str],
    count: usize,
) -> Result<Vec<String>, Fail> {
    let mut replies = Vec::new(alloc);
    for line in lines.iter().skip(count) {
        replies.push(player.play(*line)?)?;
    }
    Ok(replies)
}

// The replies to all lines but so many, in a run that finds memory.
fn amply<P: Player, R: RandomSource + AllocGlobal>(
    rt: &R,
    lines: &[&'static str],
    count: usize,
) -> Result<Vec<String>, Fail> {
    let mut player: P = played(rt, lines, count)?;
    replies_after(rt.alloc(), &mut player, lines, count)
}

// The replies to the lines after one that was refused. A get or an add is at its end then, as if it had been cancelled.
// Another move was not made.
fn without<P: Player, R: RandomSource + AllocGlobal>(
    rt: &R,
    lines: &[&'static str],
    at: usize,
    line: &'static str,
) -> Result<Vec<String>, Fail> {
    let mut player: P = played(rt, lines, at)?;
    if let Some(party) = party_of(line) {
        player.cancel(party)?;
    }
    replies_after(rt.alloc(), &mut player, lines, at.saturating_add(1))
}

// A move of a script, with its reply and those to the lines after it.
#[derive(Drop)]
struct Case<'a> {
    lines: &'a [&'static str],
    at: usize,
    line: &'static str,
    replies: Vec<String>,
    // What is replied if memory is refused, and what comes after that.
    refusal: String,
    after_refusal: Vec<String>,
}

impl<'a> Case<'a> {
    fn new<P: Player, R: RandomSource + AllocGlobal>(
        rt: &R,
        lines: &'a [&'static str],
        at: usize,
        line: &'static str,
    ) -> Result<Self, Fail> {
        Ok(Case {
            lines,
            at,
            line,
            replies: amply::<P, R>(rt, lines, at)?,
            refusal: refusal_of(rt.alloc(), lines, line)?,
            after_refusal: without::<P, R>(rt, lines, at, line)?,
        })
    }

    // The reply to the move in a run that finds memory.
    fn reply(&self) -> &str {
        match self.replies.first() {
            Some(reply) => reply.as_str(),
            None => "",
        }
    }

    // Whether the move can end as in a run that finds memory, while so much is left. Its reply is not the refusal then,
    // and the list of its replies finds no memory if none is left.
    fn can_end_amply(&self, left: usize) -> bool {
        self.reply() != self.refusal.as_str() && (left > 0 || self.line.starts_with("answer "))
    }

    // How the move ended, by its reply.
    fn ended(&self, reply: Option<String>) -> Result<Ended, Fail> {
        let Some(reply) = reply else {
            return Ok(Ended::CameBack);
        };
        if reply.as_str() == self.reply() {
            Ok(Ended::Amply)
        } else if reply.as_str() == self.refusal.as_str() {
            Ok(Ended::Refused)
        } else {
            Err(Fail::new(format_args!("{}: {reply}", self.line)))
        }
    }

    // The pool goes on as after the move, or stands as before it: one that came back is made now.
    fn goes_on<P: Player>(&self, player: &mut P, before: &str, ended: Ended) -> Result<(), Fail> {
        let next = self.at.saturating_add(1);
        if ended == Ended::Amply {
            let after = self.replies.get(1..).unwrap_or(&[]);
            return goes_on(player, self.lines, next, None, after);
        }
        has_reply(player, "status", before)?;
        if ended == Ended::Refused {
            let party = party_of(self.line);
            return goes_on(player, self.lines, next, party, &self.after_refusal);
        }
        goes_on(player, self.lines, self.at, None, &self.replies)
    }

    // Makes the move while so much memory is left. Then the pool stands as before it, or as after it, and goes on so.
    fn end<P: Player>(
        &self,
        player: &mut P,
        hoard: &mut Hoard,
        left: usize,
    ) -> Result<Ended, Fail> {
        let before = player.play("status")?;
        let ended = self.ended(player.play_short(self.line, hoard, left)?)?;
        self.goes_on(player, before.as_str(), ended)?;
        Ok(ended)
    }
}

// Makes a move with more and more memory, until it finds enough.
fn try_move<P: Player, R: RandomSource + AllocGlobal>(
    rt: &R,
    hoard: &mut Hoard,
    case: &Case<'_>,
    tally: &mut Tally,
) -> Result<(), Fail> {
    let mut left = 0;
    for _try in 0..TRIES {
        let mut player: P = played(rt, case.lines, case.at)?;
        let ended = case.end(&mut player, hoard, left)?;
        tally.count(ended);
        if ended == Ended::Amply {
            return expect(case.line, case.can_end_amply(left), true);
        }
        left = more(left);
    }
    Err(Fail::new("memory is always refused"))
}

// Makes a pool with more and more memory, until it finds enough.
fn open_short<P: Player, R: RandomSource + AllocGlobal>(
    rt: &R,
    hoard: &mut Hoard,
    first: &'static str,
    tally: &mut Tally,
) -> Result<P, Fail> {
    let mut left = 0;
    for _try in 0..TRIES {
        if let Some(player) = P::open_short(rt, first, hoard, left)? {
            tally.count(Ended::Amply);
            return if left > 0 {
                Ok(player)
            } else {
                Err(Fail::new("a pool takes memory"))
            };
        }
        tally.count(Ended::Unmade);
        left = more(left);
    }
    Err(Fail::new("memory is always refused"))
}

// Makes the pool of a script so, which then has the replies of a pool that finds memory at once.
fn try_pool<P: Player, R: RandomSource + AllocGlobal>(
    rt: &R,
    hoard: &mut Hoard,
    lines: &[&'static str],
    tally: &mut Tally,
) -> Result<(), Fail> {
    let replies = amply::<P, R>(rt, lines, 1)?;
    let mut player: P = open_short(rt, hoard, lines.first().copied().unwrap_or(""), tally)?;
    goes_on(&mut player, lines, 1, None, &replies)
}

// Makes the pool and each move of a script with too little memory.
fn try_script<P: Player, R: RandomSource + AllocGlobal>(
    rt: &R,
    hoard: &mut Hoard,
    script: &'static str,
    tally: &mut Tally,
) -> Result<(), Fail> {
    let lines = lines_of(rt.alloc(), script)?;
    try_pool::<P, R>(rt, hoard, &lines, tally)?;
    for (at, line) in lines.iter().enumerate().skip(1) {
        let case = Case::new::<P, R>(rt, &lines, at, *line)?;
        try_move::<P, R>(rt, hoard, &case, tally)?;
    }
    Ok(())
}

// Plays each script once while memory is ample, so that the stack is as large as it is to be.
fn play_amply<P: Player, R: RandomSource + AllocGlobal>(
    rt: &R,
    scripts: &[&'static str],
) -> Result<(), Fail> {
    for script in scripts {
        let lines = lines_of(rt.alloc(), *script)?;
        let _player: P = played(rt, &lines, lines.len())?;
    }
    Ok(())
}

// Makes each pool and each move of the scripts with too little memory.
fn try_all<P: Player, R: RandomSource + AllocGlobal + Print>(
    rt: &R,
    scripts: &[&'static str],
) -> Result<(), Fail> {
    play_amply::<P, R>(rt, scripts)?;
    let mut hoard = Hoard::new(rt.alloc())?;
    let mut tally = Tally::new();
    for script in scripts {
        try_script::<P, R>(rt, &mut hoard, *script, &mut tally)?;
    }
    tally.tell(rt)
}

#[test]
fn managed_moves_that_find_no_memory(rt: HostRuntime) -> Result<(), Fail> {
    try_all::<ManagedPlayer, _>(&rt, &scripts::managed(rt.alloc())?)
}

#[test]
fn unmanaged_moves_that_find_no_memory(rt: HostRuntime) -> Result<(), Fail> {
    try_all::<UnmanagedPlayer, _>(&rt, &scripts::unmanaged(rt.alloc())?)
}
