//! The lines that make a pool.
use super::words::{
    Words, end, is_no, next_number, next_word, parse_number, parse_runtime, text_of, unknown,
    words_of,
};
use super::{Language, LineError, Reason, Wanted};
use deadpool_managed::{PoolConfig, QueueMode};
use deadpool_parts::Runtime;
use std::alloc::Global;

/// What a pool is to be.
#[derive(Drop)]
pub enum PoolLine {
    Managed(ManagedPool),
    Unmanaged(UnmanagedPool),
}

/// What a managed pool is to be.
#[derive(Drop)]
pub struct ManagedPool {
    pub settings: Settings,
    pub runtime: Option<Runtime>,
    pub first_number: usize,
}

/// A managed pool's configuration.
#[derive(Drop)]
pub enum Settings {
    /// It is known.
    Known(PoolConfig),
    /// It is still to be read from this text, which may be none.
    Written(Vec<u8>),
}

/// What an unmanaged pool is to be. It has no timeout of its own.
#[derive(Drop)]
pub struct UnmanagedPool {
    pub max_size: usize,
    pub runtime: Option<Runtime>,
    /// How many gets may wait, and how many adds, if that is bounded.
    pub max_waiting: Option<usize>,
}

// Behind this word stands how many may wait.
const MOST: &str = "most";

const CONFIG: &[u8] = b"config ";

/// The pool that a line asks for.
pub fn parse_pool(alloc: Global, line: &[u8]) -> Result<PoolLine, LineError> {
    read_pool(alloc, line).map_err(|cause| cause.in_line(Language::Pools, line))
}

fn read_pool(alloc: Global, line: &[u8]) -> Result<PoolLine, LineError> {
    if line.starts_with(CONFIG) {
        return Ok(PoolLine::Managed(parse_config(alloc, &line[CONFIG.len()..])?));
    }
    let mut words = words_of(line)?;
    let word = next_word(&mut words)?;
    let pool = match word {
        "pool" => PoolLine::Managed(parse_managed_pool(&mut words)?),
        "unmanaged" => PoolLine::Unmanaged(parse_unmanaged_pool(&mut words)?),
        _ => return Err(unknown(word)),
    };
    end(&mut words)?;
    Ok(pool)
}

// Two words, and the rest of the line as it is: it may be no text.
fn parse_config(alloc: Global, rest: &[u8]) -> Result<ManagedPool, LineError> {
    let (runtime, rest) = first_word(rest)?;
    let (first_number, json) = first_word(rest)?;
    if json.is_empty() {
        return Err(LineError::NotAMove(Reason::Count));
    }
    Ok(ManagedPool {
        settings: Settings::Written(json.to_vec(alloc)?),
        runtime: parse_runtime(runtime)?,
        first_number: parse_number(first_number)?,
    })
}

// What stands before the first space, and what stands after it.
fn first_word(bytes: &[u8]) -> Result<(&str, &[u8]), LineError> {
    match bytes.iter().position(|byte| *byte == b' ') {
        None => Err(LineError::NotAMove(Reason::Count)),
        Some(end) => Ok((text_of(&bytes[..end])?, &bytes[end + 1..])),
    }
}

fn parse_managed_pool(words: &mut Words<'_>) -> Result<ManagedPool, LineError> {
    let mut config = PoolConfig::new(next_number(words)?);
    let mode = next_word(words)?;
    config.queue_mode = match mode {
        "fifo" => QueueMode::Fifo,
        "lifo" => QueueMode::Lifo,
        _ => return Err(is_no(mode, Wanted::Mode)),
    };
    let runtime = parse_runtime(next_word(words)?)?;
    let first_number = next_number(words)?;
    let mut further = words.next();
    if let Some(word) = further {
        if word != MOST {
            config.min_idle = parse_number(word)?;
            further = words.next();
        }
    }
    config.max_waiting = parse_bound(further, words)?;
    Ok(ManagedPool {
        settings: Settings::Known(config),
        runtime,
        first_number,
    })
}

fn parse_unmanaged_pool(words: &mut Words<'_>) -> Result<UnmanagedPool, LineError> {
    let max_size = next_number(words)?;
    let runtime = parse_runtime(next_word(words)?)?;
    let further = words.next();
    Ok(UnmanagedPool {
        max_size,
        runtime,
        max_waiting: parse_bound(further, words)?,
    })
}

// How many may wait, if this word says that a number of them follows.
fn parse_bound(word: Option<&str>, words: &mut Words<'_>) -> Result<Option<usize>, LineError> {
    match word {
        None => Ok(None),
        Some(MOST) => Ok(Some(next_number(words)?)),
        Some(_) => Err(LineError::NotAMove(Reason::Count)),
    }
}
