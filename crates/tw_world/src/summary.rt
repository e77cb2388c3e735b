// The last line of a script that was played, by the numbers of answers and the services at the end; tw_text prints it.

ghost use Rattle.std.specs.Prelude.{◌≡◌, map, IfOk};
ghost use Rattle.tw_world.specs.Hosts.{host_key, hosts_line};

use crate::counts::Counts;
use crate::host::Host;
use std::alloc::Global;
use tw_base::{Bytes, Key, KeyList, NoMemory};
use tw_text::print_replayed;

/// The services, each as a key of its name and the number of its steps.
fn services(alloc: Global, hosts: &[Host]) -> Result<KeyList, NoMemory>
    ensures { IfOk result (λ services. services ≡ map host_key hosts.now) }
{
    let mut services = KeyList::new(alloc);
    for host in hosts {
        services.push(Key {
            from: host.name,
            step: host.steps,
        })?;
    }
    Ok(services)
}

/// The last line of these counts and services.
pub(crate) fn print_summary(
    alloc: Global,
    counts: &Counts,
    hosts: &[Host],
) -> Result<Bytes, NoMemory>
    ensures { IfOk result (λ text. text ≡ hosts_line counts.now hosts.now) }
{
    let services = services(alloc, hosts)?;
    let Counts {
        accepted,
        none,
        refused,
        rejected,
    } = *counts;
    print_replayed(alloc, accepted, none, refused, rejected, &services)
}
