// A service on a disk in memory.

use tw_base::{Name, Sha};
use tw_disk::MemDisk;
use tw_script::CrashChoice;
use tw_service::Service;

/// A service over a disk in memory.
pub(crate) type MemService = Service<MemDisk, Sha>;

/// A crash that waits for a service's next append or delivery.
#[derive(Clone, Copy, Drop)]
pub(crate) struct Planned {
    /// The device call at which the service is stopped, counted from 1.
    pub call: u64,
    /// What is left then.
    pub choice: CrashChoice,
}

/// A service that is opened over its disk for a line, with the crash that waits for it.
#[derive(Drop)]
pub(crate) struct Opened {
    pub service: MemService,
    pub crash: Option<Planned>,
}

/// A service on a disk in memory, which is at rest between its calls.
#[derive(Drop)]
pub(crate) struct Host {
    pub name: Name,
    pub disk: MemDisk,
    /// The number of its steps.
    pub steps: u64,
    /// The crash that waits for its next append or delivery.
    pub crash: Option<Planned>,
}
