//! A query that a hook may ask of a connection: of one to a database in memory, and of one to a file.
use deadpool_sqlite::{AtPath, InMemory, Source, ping};
use std::io::Print;
use std::rt::HostRuntime;
use std::{fs, io};

/// A folder of the file's own, where the program runs, and the file. Its log stands beside it.
const FOLDER: &str = "every_call";

const FILE: &str = "every_call/numbers";

// Whether a new connection answers.
fn answers<B: Source>(source: &B) -> bool {
    match source.open() {
        Ok(mut conn) => ping(&mut conn).is_ok(),
        Err(_) => false,
    }
}

/// Prints what the calls gave.
pub fn calls<R: Print + AllocGlobal>(rt: &R, files: &HostRuntime) -> io::Result<()> {
    println!(rt; "in memory: {}", answers(&InMemory { alloc: rt.alloc() }))?;
    fs::create_dir_all(files, FOLDER)?;
    let path = String::from_str(rt.alloc(), FILE)?;
    println!(rt; "in a file: {}", answers(&AtPath { rt: *files, path }))?;
    fs::remove_dir_all(files, FOLDER)
}
