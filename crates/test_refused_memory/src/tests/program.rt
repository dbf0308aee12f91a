//! Each line of each script that the program plays, read while too little memory is left.
use super::reader::ScarceReader;
use super::scripts;
use pool_scripts::Fault;
use std::alloc::{AllocError, Global};
use std::ops::Range;
use std::random::RandomSource;
use std::test::Fail;
use test_support::expected::expect;
use test_support::hoard::{Hoard, more};
use test_support::lines;
use test_support::lines::{after_refusal, party_of, refusal_of};

// With how many amounts of memory a line is tried at most.
const TRIES: usize = 4_000;

// For what a script writes.
const ROOM: usize = 1 << 14;

// What a run writes, and how it ends.
type Run = (String, Result<(), Fault>);

fn play<R: RandomSource + AllocGlobal>(rt: &R, script: &[u8]) -> Result<Run, Fail> {
    let mut reader = script;
    let mut written = Vec::new(rt.alloc());
    let ending = pool_scripts::play(rt, &mut reader, &mut written);
    Ok((String::from_utf8(written)?, ending))
}

// How a run ended over a script of which one line finds little memory.
#[derive(Clone, Copy, PartialEq, Eq)]
enum Ended {
    // With a reply to the line that says so.
    Refused,
    // At the line.
    AtOnce,
    Amply,
}

// What was tried, and how often memory was refused: with a reply that says so, or by the end of the program.
#[derive(Clone, Copy)]
struct Tally {
    tried: usize,
    refused: usize,
    ended: usize,
}

impl Tally {
    fn new() -> Self {
        Tally {
            tried: 0,
            refused: 0,
            ended: 0,
        }
    }

    fn count(&mut self, ended: Ended) {
        match ended {
            Ended::Refused => self.refused = self.refused.saturating_add(1),
            Ended::AtOnce => self.ended = self.ended.saturating_add(1),
            Ended::Amply => {}
        }
    }

    // Memory was refused in both ways. Prints how often.
    fn tell<R: Print>(self, rt: &R, what: &str) -> Result<(), Fail> {
        let Tally {
            tried,
            refused,
            ended,
        } = self;
        expect("replies and ends", (refused > 0, ended > 0), (true, true))?;
        println!(rt; "{tried} {what}: {refused} replies, {ended} ends")?;
        Ok(())
    }
}

// The lines of a script, with the status after each.
fn lines_of(alloc: Global, script: &'static str) -> Result<Vec<&'static str>, AllocError> {
    let mut asked = Vec::new(alloc);
    for line in lines::lines_of(alloc, script)? {
        asked.push(line)?;
        asked.push("status")?;
    }
    Ok(asked)
}

fn push_lines(text: &mut String, lines: &[&str]) -> Result<(), AllocError> {
    for line in lines {
        text.push_str(*line)?;
        text.push('\n')?;
    }
    Ok(())
}

fn text_of(alloc: Global, lines: &[&str]) -> Result<String, AllocError> {
    let mut text = String::new(alloc);
    push_lines(&mut text, lines)?;
    Ok(text)
}

// Plays what a reader gives. The hoard comes back.
fn play_short<R: RandomSource + AllocGlobal>(
    rt: &R,
    reader: ScarceReader<'_>,
    mut written: Vec<u8>,
) -> Result<(Hoard, Run), Fail> {
    let mut reader = reader;
    let ending = pool_scripts::play(rt, &mut reader, &mut written);
    let hoard = reader.into_hoard();
    Ok((hoard, (String::from_utf8(written)?, ending)))
}

// Plays a script with ample memory. No reply says otherwise.
fn play_amply<R: RandomSource + AllocGlobal>(rt: &R, script: &str) -> Result<Run, Fail> {
    let run = play(rt, script.as_bytes())?;
    let is_refused = run.0.as_str().contains("ut of memory");
    expect("memory was refused", is_refused, false)?;
    Ok(run)
}

// A line of a script, and how the script goes on if memory is refused to it: with a reply that says so, or not at all.
#[derive(Drop)]
struct Case<'a> {
    script: &'a str,
    at: usize,
    amply: Run,
    refused: Run,
    ended: Run,
}

impl<'a> Case<'a> {
    fn new<R: RandomSource + AllocGlobal>(
        rt: &R,
        script: &'a str,
        lines: &[&'static str],
        at: usize,
    ) -> Result<Self, Fail> {
        let amply = play_amply(rt, script)?;
        let before = first_lines(rt.alloc(), amply.0.as_str(), at)?;
        let refused = refused_at(rt, before.as_str(), lines, at)?;
        Ok(Case {
            script,
            at,
            amply,
            refused,
            ended: (before, Err(Fault::OutOfMemory)),
        })
    }

    // How a run ended that found little memory at the line.
    fn ended(&self, run: &Run) -> Result<Ended, Fail> {
        if are_same(run, &self.amply) {
            Ok(Ended::Amply)
        } else if are_same(run, &self.ended) {
            Ok(Ended::AtOnce)
        } else if are_same(run, &self.refused) {
            Ok(Ended::Refused)
        } else {
            let (at, script) = (self.at, self.script);
            Err(Fail::new(format_args!("line {at} of {script}: {run:?}")))
        }
    }
}

fn are_same(one: &Run, other: &Run) -> bool {
    one.0.as_str() == other.0.as_str() && one.1 == other.1
}

// What is replied when memory is refused to a pool line.
fn pool_refusal(line: &str) -> &'static str {
    if line.starts_with("unmanaged ") {
        "error Out of memory\n"
    } else {
        "error Error occurred while building the pool: Out of memory\n"
    }
}

fn first_lines(alloc: Global, text: &str, count: usize) -> Result<String, AllocError> {
    let mut first = String::new(alloc);
    for line in text.split('\n').take(count) {
        first.push_str(line)?;
        first.push('\n')?;
    }
    Ok(first)
}

// The run that has these replies before a line to which memory is refused with a reply that says so. Without a pool the
// next line is not in the language.
fn refused_at<R: RandomSource + AllocGlobal>(
    rt: &R,
    before: &str,
    lines: &[&'static str],
    at: usize,
) -> Result<Run, Fail> {
    let line = lines.get(at).copied().unwrap_or("");
    let mut text = String::from_str(rt.alloc(), before)?;
    if at == 0 {
        text.push_str(pool_refusal(line))?;
        return Ok((text, Err(Fault::NotAMove(2))));
    }
    push_refusal(rt, &mut text, lines, at, line)?;
    Ok((text, Ok(())))
}

// The replies to a line to which memory is refused, and to the lines after it. A get or an add is at its end then, as
// if it had been cancelled. Another line had no effect.
fn push_refusal<R: RandomSource + AllocGlobal>(
    rt: &R,
    text: &mut String,
    lines: &[&'static str],
    at: usize,
    line: &'static str,
) -> Result<(), Fail> {
    text.push_str(refusal_of(rt.alloc(), lines, line)?.as_str())?;
    let next = at.saturating_add(1);
    let party = party_of(line);
    let skipped = if party.is_some() { next } else { at };
    let written = written_without(rt, lines, at, party)?;
    let rest = lines.get(next..).unwrap_or(&[]);
    Ok(push_replies(text, rest, party, written.as_str(), skipped)?)
}

// What a script writes in which a party is cancelled in place of a line, or nothing stands there.
fn written_without<R: RandomSource + AllocGlobal>(
    rt: &R,
    lines: &[&'static str],
    at: usize,
    party: Option<&str>,
) -> Result<String, Fail> {
    let script = script_without(rt.alloc(), lines, at, party)?;
    let (written, _) = play(rt, script.as_bytes())?;
    Ok(written)
}

// That script.
fn script_without(
    alloc: Global,
    lines: &[&'static str],
    at: usize,
    party: Option<&str>,
) -> Result<String, AllocError> {
    let mut text = text_of(alloc, lines.get(..at).unwrap_or(lines))?;
    if let Some(party) = party {
        write!(text, "cancel {party}\n")?;
    }
    push_lines(&mut text, lines.get(at.saturating_add(1)..).unwrap_or(&[]))?;
    Ok(text)
}

// The replies to the lines, which stand behind so many others. Those of the party find it at its end.
fn push_replies(
    text: &mut String,
    lines: &[&'static str],
    ended: Option<&str>,
    written: &str,
    others: usize,
) -> Result<(), AllocError> {
    let replies = written.split_inclusive('\n').skip(others);
    for (line, reply) in lines.iter().zip(replies) {
        text.push_str(after_refusal(ended, line, reply))?;
    }
    Ok(())
}

// Plays the script while so much memory is left at the line. Whether that was enough.
fn try_with<R: RandomSource + AllocGlobal>(
    rt: &R,
    hoard: Hoard,
    case: &Case<'_>,
    left: usize,
    tally: &mut Tally,
) -> Result<(Hoard, bool), Fail> {
    let written = Vec::with_capacity(rt.alloc(), ROOM)?;
    let reader = ScarceReader::new(case.script.as_bytes(), hoard, case.at, left);
    let (hoard, run) = play_short(rt, reader, written)?;
    let ended = case.ended(&run)?;
    tally.count(ended);
    Ok((hoard, ended == Ended::Amply))
}

// Plays the script with more and more memory at the line, until it finds enough. Then by the smallest steps from the
// last amount that was too little.
fn try_line<R: RandomSource + AllocGlobal>(
    rt: &R,
    hoard: Hoard,
    case: &Case<'_>,
    tally: &mut Tally,
) -> Result<Hoard, Fail> {
    let mut hoard = hoard;
    let mut too_little = 0;
    let mut left = 0;
    for _try in 0..TRIES {
        let (back, is_enough) = try_with(rt, hoard, case, left, tally)?;
        hoard = back;
        if is_enough {
            tally.tried = tally.tried.saturating_add(1);
            for amount in (too_little..left).step_by(16) {
                let (back, _) = try_with(rt, hoard, case, amount, tally)?;
                hoard = back;
            }
            return Ok(hoard);
        }
        too_little = left;
        left = more(left);
    }
    Err(Fail::new("memory is always refused"))
}

// Tries a script's lines, or its pool.
fn try_lines<R: RandomSource + AllocGlobal>(
    rt: &R,
    hoard: Hoard,
    lines: &[&'static str],
    tried: Range<usize>,
    tally: &mut Tally,
) -> Result<Hoard, Fail> {
    let script = text_of(rt.alloc(), lines)?;
    let mut hoard = hoard;
    for at in tried {
        let case = Case::new(rt, script.as_str(), lines, at)?;
        hoard = try_line(rt, hoard, &case, tally)?;
    }
    Ok(hoard)
}

// Plays a script once while memory is ample, so that the stack is as large as it is to be.
fn play_once<R: RandomSource + AllocGlobal>(rt: &R, lines: &[&'static str]) -> Result<(), Fail> {
    let script = text_of(rt.alloc(), lines)?;
    let _ = play(rt, script.as_bytes())?;
    Ok(())
}

// Tries the lines of the scripts, but those of the pools.
fn try_all<R: RandomSource + AllocGlobal + Print>(
    rt: &R,
    scripts: &[&'static str],
) -> Result<(), Fail> {
    for script in scripts {
        play_once(rt, &lines_of(rt.alloc(), *script)?)?;
    }
    let mut hoard = Hoard::new(rt.alloc())?;
    let mut tally = Tally::new();
    for script in scripts {
        let lines = lines_of(rt.alloc(), *script)?;
        hoard = try_lines(rt, hoard, &lines, 1..lines.len(), &mut tally)?;
    }
    tally.tell(rt, "lines")
}

#[test]
fn lines_over_a_managed_pool_that_find_no_memory(rt: HostRuntime) -> Result<(), Fail> {
    try_all(&rt, &scripts::managed(rt.alloc())?)
}

#[test]
fn lines_over_an_unmanaged_pool_that_find_no_memory(rt: HostRuntime) -> Result<(), Fail> {
    try_all(&rt, &scripts::unmanaged(rt.alloc())?)
}

// Scripts of which the first line is tried.
const POOLS: [&'static [&'static str]; 6] = [
    &["pool 2 fifo none 0", "start"],
    &["pool 16 lifo clock 3 1", "start"],
    &["unmanaged 16 none", "get"],
    &[
        "config clock 0 {\"max_size\":42,\"timeouts\":{\"wait\":{\"secs\":1,\"nanos\":0}}}",
        "start",
    ],
    &[
        "config none 0 {\"max_size\":1,\"timeouts\":{\"wait\":{\"secs\":0,\"nanos\":0}}}",
        "start",
    ],
    &[
        "config none 0 {\"max_size\":1,\"queue_mode\":\"lifo\"}",
        "start",
    ],
];

#[test]
fn pool_lines_that_find_no_memory(rt: HostRuntime) -> Result<(), Fail> {
    for lines in POOLS {
        play_once(&rt, lines)?;
    }
    let mut hoard = Hoard::new(rt.alloc())?;
    let mut tally = Tally::new();
    for lines in POOLS {
        hoard = try_lines(&rt, hoard, lines, 0..1, &mut tally)?;
    }
    tally.tell(&rt, "pool lines")
}

// Plays a script while so much memory is left before its first line. Whether that was enough: if not, it has no reply.
fn try_start<R: RandomSource + AllocGlobal>(
    rt: &R,
    hoard: Hoard,
    script: &str,
    amply: &str,
    left: usize,
) -> Result<(Hoard, bool), Fail> {
    let written = Vec::with_capacity(rt.alloc(), ROOM)?;
    let reader = ScarceReader::at_the_start(script.as_bytes(), hoard, left)?;
    let (hoard, (replies, ending)) = play_short(rt, reader, written)?;
    let is_enough = ending == Ok(());
    let wanted: (&str, Result<(), Fault>) = if is_enough {
        (amply, Ok(()))
    } else {
        ("", Err(Fault::OutOfMemory))
    };
    expect(
        "the replies and the end",
        (replies.as_str(), ending),
        wanted,
    )?;
    Ok((hoard, is_enough))
}

// Before its first line the program needs memory too.
#[test]
fn a_program_that_finds_no_memory(rt: HostRuntime) -> Result<(), Fail> {
    let script = "pool 1 fifo none 0\nstart\nstatus\n";
    let (amply, _) = play(&rt, script.as_bytes())?;
    let mut hoard = Hoard::new(rt.alloc())?;
    let mut left = 0;
    for ends in 0..TRIES {
        let (back, is_enough) = try_start(&rt, hoard, script, amply.as_str(), left)?;
        hoard = back;
        if is_enough {
            println!(rt; "{ends} ends before the first line")?;
            return expect("there were ends", ends > 0, true);
        }
        left = more(left);
    }
    Err(Fail::new("memory is always refused"))
}
