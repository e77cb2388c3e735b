// Services on disks in memory, under any hasher, and what they tell.

use std::alloc::Global;
use tw_base::{Bytes, Digest, EventList, Hasher, Name, NoMemory, Question, Sha};
use tw_disk::MemDisk;
use tw_service::Service;

/// One event of these bytes.
pub(crate) fn one_event(alloc: Global, bytes: &[u8]) -> Result<EventList, NoMemory> {
    let event = Bytes::from_slice(alloc, bytes)?;
    let mut events = EventList::new(alloc);
    events.push(event)?;
    Ok(events)
}

/// A new service of this name.
pub(crate) fn init<H: Hasher>(alloc: Global, name: &[u8]) -> Option<Service<MemDisk, H>> {
    match Service::<MemDisk, H>::init(alloc, MemDisk::new(alloc), Name::read(name)?) {
        Ok(service) => Some(service),
        Err((_, _)) => None,
    }
}

/// The service on this disk.
pub(crate) fn open<H: Hasher>(alloc: Global, disk: MemDisk) -> Option<Service<MemDisk, H>> {
    match Service::<MemDisk, H>::open(alloc, disk) {
        Ok(service) => Some(service),
        Err((_, _)) => None,
    }
}

/// The authenticator of one more step, of one event of these bytes.
pub(crate) fn add<H: Hasher>(
    alloc: Global,
    service: &mut Service<MemDisk, H>,
    event: &[u8],
) -> Option<Digest> {
    let events = one_event(alloc, event).ok()?;
    let thread = service.append(&events).ok()?;
    Some(thread.auth)
}

/// The message of the first step of a service of this name, which is of one event of these bytes.
pub(crate) fn told<H: Hasher>(alloc: Global, name: &[u8], event: &[u8]) -> Option<Bytes> {
    let mut service = init::<H>(alloc, name)?;
    add(alloc, &mut service, event)?;
    service.ask(&Question::ThreadOut { since: 0 }).ok()
}

/// A service that received the first step of a service `beta`, of the event 9, at its step 1 and the time 7, and recorded that event at its
/// step 2 and that time.
pub(crate) fn received(alloc: Global) -> Option<Service<MemDisk, Sha>> {
    let mut service = init::<Sha>(alloc, b"alpha")?;
    let message = told::<Sha>(alloc, b"beta", &[9])?;
    service.receive_at(message.as_slice(), 7).ok()?;
    service.append_at(&one_event(alloc, &[9]).ok()?, 7).ok()?;
    Some(service)
}
