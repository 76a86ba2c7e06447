//! Keepers and archives of saved states: the traits, fakes in memory, an archive in SQL, and the laws of what an archive keeps.
#![tactic(auto)]

mod calls;
mod entries;
mod error;
mod keeper;
pub mod laws;
mod memory_archive;
mod memory_keeper;
mod openers;
mod sql;
mod sqlite_archive;

pub use error::KeepError;
pub use keeper::{Archive, Keeper, Legs};
pub use memory_archive::MemoryArchive;
pub use memory_keeper::MemoryKeeper;
pub use openers::{FileOpener, MemoryOpener, Opener};
pub use sqlite_archive::SqliteArchive;
