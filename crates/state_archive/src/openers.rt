// How an archive in SQL gets its connection.
use sqlite::{Alter, Connection, Error, File, FileStore, MemStore};
use std::alloc::Global;

/// What makes the connection of an archive.
pub trait Opener {
    /// Where the connection keeps its tables.
    type Store: Alter + Drop;

    /// A new connection, or why there is none.
    fn connect(&mut self) -> Result<Connection<Self::Store>, Error>;
}

/// Opens a database in a file.
#[derive(Drop)]
pub struct FileOpener<'a> {
    rt: &'a HostRuntime,
    path: &'a str,
}

impl<'a> FileOpener<'a> {
    /// Opens the file of the name `path`, once it is asked to. It takes no memory before.
    pub fn new(rt: &'a HostRuntime, path: &'a str) -> FileOpener<'a> {
        FileOpener { rt, path }
    }
}

impl<'a> Opener for FileOpener<'a> {
    type Store = FileStore<File>;

    fn connect(&mut self) -> Result<Connection<FileStore<File>>, Error> {
        Connection::open(self.rt, self.path)
    }
}

/// Opens a new database in memory at each connection.
#[derive(Clone, Copy)]
pub struct MemoryOpener {
    alloc: Global,
}

impl MemoryOpener {
    /// Opens a database in memory of `alloc`, once it is asked to. It takes no memory before.
    pub fn new(alloc: Global) -> MemoryOpener {
        MemoryOpener { alloc }
    }
}

impl Opener for MemoryOpener {
    type Store = MemStore;

    fn connect(&mut self) -> Result<Connection<MemStore>, Error> {
        Ok(Connection::open_in_memory(self.alloc)?)
    }
}
