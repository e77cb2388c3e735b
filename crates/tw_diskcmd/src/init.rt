// The command `init`, which makes a service.

ghost use Rattle.std.specs.Prelude.{◌≡◌};
ghost use Rattle.sha2.specs.Sha256.{sha256};
ghost use Rattle.tw_service.specs.Machine.{last_thread};
ghost use Rattle.tw_service.specs.Stands.{no_history};
ghost use Rattle.tw_diskcmd.specs.Disks.{found_disk};
ghost use Rattle.tw_diskcmd.specs.Init.{InitComes, InitLeaves};

use crate::store_faults::fault_of_store;
use crate::worked::Worked;
use std::alloc::Global;
use tw_base::{Name, Sha, Thread, genesis};
use tw_disk::Disk;
use tw_service::Service;

/// Makes a service of this name on the disk, and answers the thread of its step 0.
pub fn init_service<D: Disk>(alloc: Global, disk: D, name: Name) -> Worked<D, Thread>
    // What `init` comes to is what the disk and its count of faults allow: the thread of step 0, or a fault with its
    // cause.
    ensures comes { InitComes (found_disk (D.view disk).content (D.view disk).faults (D.view result.disk).faults) name result.outcome }
    // It leaves the disk as is right for what it came to.
    ensures leaves { InitLeaves D.view disk result.disk name result.outcome }
{
    match Service::<D, Sha>::init(alloc, disk, name) {
        Ok(service) => Worked {
            outcome: Ok(first_thread(name)),
            disk: service.close(),
        },
        Err((disk, fault)) => Worked {
            outcome: Err(fault_of_store(fault)),
            disk,
        },
    }
}

/// The thread of a history of this name without a step: step 0 with the authenticator of the name.
fn first_thread(name: Name) -> Thread
    ensures { result ≡ last_thread sha256 (no_history name) }
{
    Thread {
        from: name,
        step: 0,
        auth: genesis::<Sha>(&name),
    }
}
