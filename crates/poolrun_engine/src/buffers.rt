//! Puts each line of the input into a buffer of a pool of one.
use deadpool::NoTime;
use deadpool::managed::{Ledgers, NoHook, Object, PoolBuilder};
use deadpool_buffers::{BufferPool, Buffers, fill};
use deadpool_threads::{Blocking, Plain, PoolUser, with_pool};
use pool_scripts::{Fault, read_line, without_line_feed, write_out};
use std::alloc::Global;
use std::io::{BufRead, Write};
use std::random::RandomSource;
use std::sync::Wait;

// For how many bytes a new buffer has room.
const RESERVE: usize = 16;

/// What a pool of buffers is made of.
pub type BufferPoolBuilder = PoolBuilder<Plain<Buffers>, NoHook, NoHook, NoTime>;

type LinePool<R, L> = BufferPool<NoTime, R, L>;

/// What a pool of one buffer is made of. A buffer that comes back with at most `most` bytes is used again.
pub fn builder_of(alloc: Global, most: usize) -> BufferPoolBuilder {
    let manager = Buffers {
        alloc,
        reserve: RESERVE,
        most,
    };
    PoolBuilder::new(alloc, Plain(manager), NoTime).max_size(1)
}

/// Makes the pool, gets a buffer for each line of the input, and writes which one it is and how many bytes are in it. A
/// line is read only once what was written for the one before it is out.
pub fn fill_buffers<R, B: BufRead, W: Write>(
    rt: &R,
    builder: BufferPoolBuilder,
    reader: &mut B,
    writer: &mut W,
) -> Result<(), Fault>
where
    R: RandomSource + AllocGlobal + Wait + Drop + Copy + Send + Sync,
{
    match with_pool(builder, *rt, Filling { reader, writer }) {
        Ok(ending) => ending,
        Err(_) => Err(Fault::OutOfMemory),
    }
}

// Puts all lines into buffers.
#[derive(Drop)]
struct Filling<'a, B, W> {
    reader: &'a mut B,
    writer: &'a mut W,
}

impl<R, B: BufRead, W: Write> PoolUser<Plain<Buffers>, NoHook, NoHook, NoTime, R>
    for Filling<'_, B, W>
where
    R: RandomSource + AllocGlobal + Wait + Drop,
{
    type Output = Result<(), Fault>;

    fn run<L: Ledgers>(self, rt: &R, pool: &LinePool<R, L>) -> Result<(), Fault> {
        let mut waiter = Blocking::new(rt).map_err(|_| Fault::OutOfMemory)?;
        let mut line = Vec::new(rt.alloc());
        for _ in 0..u64::MAX {
            if !read_line(self.reader, &mut line)? {
                return Ok(());
            }
            put_line(rt, pool, &mut waiter, without_line_feed(&line), self.writer)?;
        }
        Err(Fault::InputFailed)
    }
}

// Puts a line into a buffer, which goes back once that is written.
fn put_line<R, W: Write, L: Ledgers>(
    rt: &R,
    pool: &LinePool<R, L>,
    waiter: &mut Blocking,
    line: &[u8],
    writer: &mut W,
) -> Result<(), Fault>
where
    R: AllocGlobal + Wait + Drop,
{
    let Ok(mut buffer) = waiter.get(rt, pool) else {
        return Err(Fault::OutOfMemory);
    };
    let count = fill(&mut buffer, line)?;
    let id = Object::id(&buffer);
    let reply = format!(in rt.alloc(); "buffer {id} bytes {count}\n")?;
    write_out(writer, reply.as_str())
}
