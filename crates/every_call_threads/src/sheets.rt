//! Writers that say how many lines they wrote, and that all together wrote what each was told.
ghost use Rattle.std.specs.Prelude.{◌≡◌, List, ℕ, map, sum, IfOk, IfSome};
ghost use Rattle.std.specs.List.{AllZip};

use deadpool_builder::PoolBuilder;
use deadpool_managed::{BuildError, Metrics, NoHook, PoolError, RecycleResult};
use deadpool_parts::NoTime;
use deadpool_shared::Ledgers;
use deadpool_threads::{Blocking, Host, Plain, PlainManager, PlainPool, PoolUser, with_threads};
use std::io;
use std::io::Print;
use std::sync::Wait;

/// Makes blank sheets, and hands out each blank again. A sheet is how many lines are on it.
#[derive(Drop)]
struct Blanks;

impl PlainManager for Blanks {
    type Type = u64;

    type Error = ();

    ghost is_ready = { λ sheet. sheet ≡ 0 };

    fn create(&self) -> Result<u64, ()> {
        Ok(0)
    }

    fn recycle(&self, sheet: &mut u64, _metrics: &Metrics) -> RecycleResult<()> {
        *sheet = 0;
        Ok(())
    }
}

type Sheets<R, L> = PlainPool<Plain<Blanks>, R, L>;

type Ended = Result<u64, PoolError<()>>;

/// Writes so many lines, each on a blank sheet, and says how many it wrote.
#[derive(Drop)]
struct Writer {
    lines: u64,
}

impl<R: Host> PoolUser<Plain<Blanks>, NoHook, NoHook, NoTime, R> for Writer {
    type Output = Ended;

    ghost returns = { λ writer ended. IfOk ended (λ lines. lines ≡ writer.lines) };

    fn run<L: Ledgers>(self, rt: &R, pool: &Sheets<R, L>) -> Ended {
        let Ok(mut waiter) = Blocking::new(rt) else {
            return Err(PoolError::OutOfMemory);
        };
        let mut lines = 0;
        for line in 0..self.lines {
            lines = line + write(rt, &mut waiter, pool)?;
        }
        Ok(lines)
    }
}

// The lines on a sheet that was blank, once there is one more.
fn write<R: Wait + Drop, L: Ledgers>(rt: &R, waiter: &mut Blocking, pool: &Sheets<R, L>) -> Ended
    ensures { IfOk result (λ lines. lines ≡ 1) }
{
    let mut sheet = waiter.get(rt, pool)?;
    let lines = *sheet + 1;
    *sheet = lines;
    Ok(lines)
}

// The lines of all, if each ended well.
fn total_of(ended: Vec<Ended>) -> Option<u64>
    ensures { IfSome result (λ total. (told : List ℕ)
        → AllZip (λ lines end. IfOk end (λ done. done ≡ lines)) told ended.items → total ≡ sum told) }
{
    let mut total = 0u64;
    for end in ended {
        let Ok(lines) = end else {
            return None;
        };
        total = total.checked_add(lines)?;
    }
    Some(total)
}

// What the writers wrote together, and then the last one.
fn written<R: Host>(
    rt: R,
    writers: Vec<Writer>,
    last: Writer,
) -> Result<(Option<u64>, Ended), BuildError>
    ensures writers { IfOk result (λ told. IfSome told.0 (λ lines.
        lines ≡ sum (map (λ writer. writer.lines) writers.items))) }
    ensures last { IfOk result (λ told. IfOk told.1 (λ lines. lines ≡ last.lines)) }
{
    let builder = PoolBuilder::new(rt.alloc(), Plain(Blanks), NoTime);
    let outputs = with_threads(builder, rt, writers, last)?;
    Ok((total_of(outputs.0), outputs.1))
}

/// Prints what was written.
pub fn calls<R: Host + Print>(rt: R) -> io::Result<()> {
    let writers = vec![in rt.alloc(); Writer { lines: 3 }, Writer { lines: 4 }]?;
    let (total, last) = written(rt, writers, Writer { lines: 5 })?;
    println!(rt; "sheets: {total:?} {last:?}")
}
