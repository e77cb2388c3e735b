// What a command came to on a disk, and that disk.

use tw_text::CommandFault;

/// What a command came to on a disk, and that disk.
#[derive(Drop)]
pub struct Worked<D, T> {
    pub outcome: Result<T, CommandFault>,
    pub disk: D,
}
