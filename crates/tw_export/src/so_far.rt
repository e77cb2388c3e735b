// The steps that were added so far: their file, and what is numbered of their archives.

use crate::archive::ArchiveSoFar;
use crate::file::HistoryFile;

/// The steps so far: their file, and what is numbered of their archives.
#[derive(Drop)]
pub(crate) struct StepsSoFar {
    pub file: HistoryFile,
    pub archive: ArchiveSoFar,
}
