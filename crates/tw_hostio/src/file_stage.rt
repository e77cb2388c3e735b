// How far a file is opened.

/// How far a file is opened.
#[derive(Clone, Copy, PartialEq, Eq, Debug, Drop)]
pub enum FileStage {
    /// Nothing of it is open.
    Closed,
    /// It is open to be read, and its lock is held.
    Locked,
    /// It is open to be read and written, its lock is held alone, and its name was made stable since.
    Named,
}
