//! The step of a line, made again on a pool.
ghost use Rattle.deadpool_desk.specs.Replies.{Brings};

use deadpool_gate::gate::Ticket;
use deadpool_journal::Entry;
use deadpool_managed::{
    Core, Desk, Held, OwnerDesk, OwnerReply, OwnerStep, Reply, Retainer, Slot, Step,
};
use pool_scripts::{LineError, Reason, parse_number};
use std::alloc::{AllocError, Global};
use std::str;
use std::str::Split;

/// The words of a line, which one space each parts.
pub type Words<'a> = Split<'a, char>;

/// What a step is replied that found no memory.
pub const OUT_OF_MEMORY: &str = "out_of_memory";

/// The words of a line, if it is text.
pub fn words_of(line: &[u8]) -> Result<Words<'_>, LineError> {
    let text = str::from_utf8(line).map_err(|_| LineError::NotAMove(Reason::NoStep))?;
    Ok(text.split(' '))
}

/// The next word.
pub fn next_word<'a>(words: &mut Words<'a>) -> Result<&'a str, LineError> {
    words.next().ok_or(LineError::NotAMove(Reason::NoStep))
}

/// The next word, a number.
pub fn next_number(words: &mut Words<'_>) -> Result<usize, LineError> {
    parse_number(next_word(words)?)
}

/// Sees that no word is left.
pub fn end(words: &mut Words<'_>) -> Result<(), LineError> {
    match words.next() {
        None => Ok(()),
        Some(_) => Err(LineError::NotAMove(Reason::NoStep)),
    }
}

/// Makes the step that a line names, and gives it with the reply that it has now. A step that is said to have found no
/// memory has changed nothing, and is not made.
pub fn make_again(
    alloc: Global,
    core: &mut Core<()>,
    words: &mut Words<'_>,
) -> Result<Entry, LineError> {
    Ok(match next_word(words)? {
        "enter" => return enter(core, words),
        "ask" => ask(core, words)?,
        "again" => again(core, words)?,
        "back" => made(core, Step::Back, Some(slot_of(next_number(words)?))),
        "cancel" => cancel(core, words)?,
        "resize" => return resize(core, words),
        "retain" => return retain(alloc, core, words),
        word => make_plain(core, word)?,
    })
}

// The steps that a line names by one word.
fn make_plain(core: &mut Core<()>, word: &str) -> Result<Entry, LineError> {
    Ok(match word {
        "discard" => made(core, Step::Discard, None),
        "created" => made(core, Step::Created, None),
        "failed" => made(core, Step::Failed, None),
        "refused" => made(core, Step::Refused, None),
        "take" => made(core, Step::Take, None),
        "status" => made_for_owner(core, OwnerStep::Status),
        "close" => made_for_owner(core, OwnerStep::Close),
        "clone_handle" => made_for_owner(core, OwnerStep::CloneHandle),
        "drop_handle" => made_for_owner(core, OwnerStep::DropHandle),
        "upgrade" => made_for_owner(core, OwnerStep::Upgrade),
        _ => return Err(LineError::NotAMove(Reason::NoStep)),
    })
}

// A step with its reply, and the number of the object that it took or gave.
fn made(core: &mut Core<()>, step: Step, brought: Option<Slot<()>>) -> Entry
    requires { Brings step brought }
{
    let mut hand = brought;
    let number = hand.as_ref().map(|slot| slot.number);
    let reply = core.make(&step, &mut hand);
    let number = number.or(hand.as_ref().map(|slot| slot.number));
    Entry::Made(step, number, reply)
}

// A step of the pool's owner with its reply.
fn made_for_owner(core: &mut Core<()>, step: OwnerStep) -> Entry {
    let reply = core.make_for_owner(&step);
    Entry::Owner(step, reply)
}

// Memory is wanting only to a get that joins the queue.
fn enter(core: &mut Core<()>, words: &mut Words<'_>) -> Result<Entry, LineError> {
    let word = next_word(words)?;
    if word == OUT_OF_MEMORY && core.would_queue() {
        let step = Step::Enter { wait: true };
        return Ok(Entry::Made(step, None, Reply::OutOfMemory));
    }
    let wait = word != "at_once";
    match made(core, Step::Enter { wait }, None) {
        Entry::Made(_, _, Reply::OutOfMemory) => Err(LineError::OutOfMemory),
        entry => Ok(entry),
    }
}

fn ask(core: &mut Core<()>, words: &mut Words<'_>) -> Result<Entry, LineError> {
    let ticket = Ticket::from_number(next_number(words)?);
    let expired = next_word(words)? == "late";
    Ok(made(core, Step::Ask { ticket, expired }, None))
}

// The number of idle objects that it may take may stand first.
fn again(core: &mut Core<()>, words: &mut Words<'_>) -> Result<Entry, LineError> {
    let allowance = parse_number(next_word(words)?).ok();
    Ok(made(core, Step::Again { allowance }, None))
}

// An object without a value.
fn slot_of(number: usize) -> Slot<()> {
    Slot { number, value: () }
}

fn cancel(core: &mut Core<()>, words: &mut Words<'_>) -> Result<Entry, LineError> {
    Ok(match next_word(words)? {
        "ticket" => {
            let ticket = Ticket::from_number(next_number(words)?);
            made(core, Step::Withdraw { ticket }, None)
        }
        "place" => made(core, Step::Cancel(Held::Place), None),
        "creation" => made(core, Step::Cancel(Held::Creation), None),
        "object" => made(core, Step::Cancel(Held::Object), None),
        _ => return Err(LineError::NotAMove(Reason::NoStep)),
    })
}

fn resize(core: &mut Core<()>, words: &mut Words<'_>) -> Result<Entry, LineError> {
    let limit = next_number(words)?;
    let step = OwnerStep::Resize { limit };
    if next_word(words)? == OUT_OF_MEMORY {
        return Ok(Entry::Owner(step, OwnerReply::OutOfMemory));
    }
    match made_for_owner(core, step) {
        Entry::Owner(_, OwnerReply::OutOfMemory) => Err(LineError::OutOfMemory),
        entry => Ok(entry),
    }
}

// Gives up the objects at these positions.
#[derive(Drop)]
struct Positions {
    given_up: Vec<usize>,
    asked: usize,
}

impl Retainer<()> for Positions {
    type Left = ();

    fn keeps(&mut self, _number: usize, _value: &()) -> bool {
        let position = self.asked;
        self.asked = position.saturating_add(1);
        !self.given_up.contains(&position)
    }

    fn detach(&mut self, _value: ()) {}
}

fn retain(alloc: Global, core: &mut Core<()>, words: &mut Words<'_>) -> Result<Entry, LineError> {
    if next_word(words)? == OUT_OF_MEMORY {
        return Ok(Entry::Retain(Err(AllocError)));
    }
    let mut positions = Positions {
        given_up: Vec::new(alloc),
        asked: 0,
    };
    for word in words {
        let (_number, position) = word
            .split_once('@')
            .ok_or(LineError::NotAMove(Reason::NoStep))?;
        positions.given_up.push(parse_number(position)?)?;
    }
    let (_, noted) = core.retain_noting(&mut positions)?;
    Ok(Entry::Retain(Ok(noted)))
}
