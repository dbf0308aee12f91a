//! Pools and configurations that find no memory.
mod alarms;
mod calls;
mod configurations;
mod managed_player;
mod player;
mod program;
mod reader;
mod scripts;
mod shared_pools;
mod told;
mod tracked;
mod trials;
mod unmanaged_player;
mod unmanaged_shared_pools;
