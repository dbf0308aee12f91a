//! Where connections come from.
ghost use Rattle.std.specs.Prelude.{⊤, Result, string_bytes};
ghost use Rattle.sqlite.specs.Held.{Held};
ghost use Rattle.sqlite.specs.Files.{file_state};
ghost use Rattle.sqlite.specs.Steps.{over_memory};
ghost use Rattle.sqlite.specs.declared.error.Error as error;
ghost use Rattle.deadpool_sqlite.specs.Sources.{OpensEmpty, OpensFile};

use sqlite::{Alter, Connection, Error, ErrorCode, File, FileStore, MemStore};
use std::alloc::Global;
use std::rt::HostRuntime;

/// Opens the connections of a pool.
///
/// An implementation states by `may_open` which answers it may give. By default every answer is allowed.
pub trait Source: Drop {
    /// What keeps the database of a connection.
    type Storage: Alter + Drop;

    // Holds of each answer to an open.
    ghost may_open: { Self → Result (Held Self.Storage) error.Error → Type 0 } = { λ _ _. ⊤ };

    /// Opens one more connection, or answers the database's own error.
    fn open(&self) -> Result<Connection<Self::Storage>, Error>
        ensures { may_open self.now result };
}

/// An empty database in memory for each connection, which has it alone and loses it with its end.
#[derive(Drop)]
pub struct InMemory {
    pub alloc: Global,
}

impl Source for InMemory {
    type Storage = MemStore;

    ghost may_open = { λ _ answer. OpensEmpty over_memory answer };

    fn open(&self) -> Result<Connection<MemStore>, Error> {
        match Connection::open_in_memory(self.alloc) {
            Ok(conn) => Ok(conn),
            Err(_refused) => Err(Error::SqliteFailure(ErrorCode::OutOfMemory)),
        }
    }
}

/// The database file at a path, which is made if there is none. One connection at a time has it open, and any other is
/// refused with `DatabaseBusy`.
#[derive(Drop)]
pub struct AtPath {
    pub rt: HostRuntime,
    pub path: String,
}

impl Source for AtPath {
    type Storage = FileStore<File>;

    ghost may_open = { λ source answer. OpensFile file_state (string_bytes source.path) answer };

    fn open(&self) -> Result<Connection<FileStore<File>>, Error> {
        Connection::open(&self.rt, &self.path)
    }
}
