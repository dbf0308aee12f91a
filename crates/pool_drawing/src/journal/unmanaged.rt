//! The step of a line of an unmanaged pool's journal, made again on a pool.
ghost use Rattle.deadpool_unmanaged.specs.Replies.{Brings};

use super::step::{OUT_OF_MEMORY, Words, next_number, next_word};
use deadpool_unmanaged::gate::Ticket;
use deadpool_unmanaged::{Core, Reply, Step};
use deadpool_unmanaged_journal::{Entry, OwnerStep};
use pool_scripts::{LineError, Reason, parse_number};
use std::fmt;

/// What an object is called in a journal.
#[derive(Clone, Copy, Debug, PartialEq, Eq)]
pub enum Name {
    /// It has no name, and is written `_`.
    Unnamed,
    Number(usize),
}

impl fmt::Display for Name {
    fn fmt<W: fmt::Write>(&self, f: &mut fmt::Formatter<W>) -> fmt::Result {
        match self {
            Name::Unnamed => f.write_str("_"),
            Name::Number(number) => write!(f, "{number}"),
        }
    }
}

/// Makes the step that a line names, and gives it with the reply that it has now. A step that is said to have found no
/// memory has changed nothing, and is not made.
pub fn make_unmanaged_again(
    core: &mut Core<Name>,
    words: &mut Words<'_>,
) -> Result<Entry<Name>, LineError> {
    match next_word(words)? {
        "get" => enter_get(core, words),
        "get_ask" => ask_of_get(core, words),
        "get_cancel" => {
            let ticket = ticket_of(next_number(words)?);
            Ok(made(core, Step::GetCancel { ticket }, None))
        }
        "add" => enter_add(core, words),
        "add_ask" => ask_of_add(core, words),
        "add_cancel" => {
            let ticket = ticket_of(next_number(words)?);
            Ok(made(core, Step::AddCancel { ticket }, None))
        }
        "back" => {
            let object = name_of(next_word(words)?)?;
            Ok(made(core, Step::Back, Some(object)))
        }
        "take" => Ok(made(core, Step::Take, None)),
        word => Ok(made_for_owner(core, owner_step_of(word)?)),
    }
}

fn ask_of_get(core: &mut Core<Name>, words: &mut Words<'_>) -> Result<Entry<Name>, LineError> {
    let ticket = ticket_of(next_number(words)?);
    let expired = next_word(words)? == "late";
    Ok(made(core, Step::GetAsk { ticket, expired }, None))
}

fn ask_of_add(core: &mut Core<Name>, words: &mut Words<'_>) -> Result<Entry<Name>, LineError> {
    let ticket = ticket_of(next_number(words)?);
    let object = name_of(next_word(words)?)?;
    Ok(made(core, Step::AddAsk { ticket }, Some(object)))
}

fn ticket_of(number: usize) -> Ticket {
    Ticket::from_number(number)
}

fn name_of(word: &str) -> Result<Name, LineError> {
    if word == "_" {
        return Ok(Name::Unnamed);
    }
    Ok(Name::Number(parse_number(word)?))
}

// A step with its reply, and the object that it took or gave.
fn made(core: &mut Core<Name>, step: Step, brought: Option<Name>) -> Entry<Name>
    requires { Brings step brought }
{
    let mut hand = brought;
    let reply = core.make(&step, &mut hand);
    Entry::Made(step, brought.or(hand), reply)
}

fn made_for_owner(core: &mut Core<Name>, step: OwnerStep) -> Entry<Name> {
    let reply = step.make(core);
    Entry::Owner(step, reply)
}

fn owner_step_of(word: &str) -> Result<OwnerStep, LineError> {
    Ok(match word {
        "status" => OwnerStep::Status,
        "close" => OwnerStep::Close,
        "clone_handle" => OwnerStep::CloneHandle,
        "drop_handle" => OwnerStep::DropHandle,
        "upgrade" => OwnerStep::Upgrade,
        _ => return Err(LineError::NotAMove(Reason::NoStep)),
    })
}

// Memory is wanting only to a get that joins the queue.
fn enter_get(core: &mut Core<Name>, words: &mut Words<'_>) -> Result<Entry<Name>, LineError> {
    let word = next_word(words)?;
    if word == OUT_OF_MEMORY && core.get_would_queue() {
        let step = Step::GetEnter { wait: true };
        return Ok(Entry::Made(step, None, Reply::OutOfMemory));
    }
    let wait = word != "at_once";
    with_memory(made(core, Step::GetEnter { wait }, None))
}

// The same of an add, whose object stands before the reply.
fn enter_add(core: &mut Core<Name>, words: &mut Words<'_>) -> Result<Entry<Name>, LineError> {
    let word = next_word(words)?;
    if word == "at_once" {
        let object = name_of(next_word(words)?)?;
        return with_memory(made(core, Step::AddEnter { wait: false }, Some(object)));
    }
    let object = name_of(word)?;
    let step = Step::AddEnter { wait: true };
    if next_word(words)? == OUT_OF_MEMORY && core.add_would_queue() {
        return Ok(Entry::Made(step, Some(object), Reply::OutOfMemory));
    }
    with_memory(made(core, step, Some(object)))
}

// A step that finds no memory here has no entry.
fn with_memory(entry: Entry<Name>) -> Result<Entry<Name>, LineError> {
    match entry {
        Entry::Made(_, _, Reply::OutOfMemory) => Err(LineError::OutOfMemory),
        entry => Ok(entry),
    }
}
