// What a program may do with the file of a disk; what a command does with its store is `StoreAccess` of tw_app.

/// What a program may do with the file of a disk, and which lock it holds on it.
#[derive(Clone, Copy, PartialEq, Eq, Debug, Drop)]
pub enum Access {
    /// It reads, and holds the lock together with others that read.
    Read,
    /// It reads and writes, and holds the lock alone.
    Write,
}
