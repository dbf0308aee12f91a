//! A pool of connections to SQLite databases: its manager, where its connections come from, and what whoever is handed
//! one of them knows.
#![tactic(auto)]

mod get;
mod manager;
mod query;
mod recycling;
mod source;

pub use get::{GetConnection, PooledConnection, SqlitePool, poll_connection};
pub use manager::SqliteManager;
pub use query::ping;
pub use recycling::RecyclingMethod;
pub use source::{AtPath, InMemory, Source};
