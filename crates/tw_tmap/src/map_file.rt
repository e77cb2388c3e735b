// Map files as values: the low one, which a service gives of its own step, and the high one, which its peer gives.

use tw_base::{Name, TreeProof};
use tw_skipproof::{Opening, Path};

/// The low file, which a service gives of a step of its own, from 1 on: under its top, the step before,
/// where there is one, with the tree proof of its archive that shows the peer's last thread there.
#[derive(Drop, Debug)]
pub struct LowFile {
    pub service: Name,
    pub step: u64,
    pub peer: Name,
    pub top: u64,
    pub shown: Option<LowPart>,
}

/// The step before a low file's: the path down to it from the top, its opening, and the tree proof.
#[derive(Drop, Debug)]
pub struct LowPart {
    pub path: Path,
    pub opening: Opening,
    pub shown: TreeProof,
}

/// The high file, which the other service gives of its top: `service` is its name, and `peer` that of the
/// service whose step is meant. The opening of the top, and the tree proof of its archive that shows the
/// first thread of that service of the step or of a later one.
#[derive(Drop, Debug)]
pub struct HighFile {
    pub service: Name,
    pub top: u64,
    pub peer: Name,
    pub step: u64,
    pub opening: Opening,
    pub shown: TreeProof,
}
