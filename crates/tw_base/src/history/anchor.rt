// Finding the anchor of a service and a step among those that are held; an anchors file is read in tw_msg.

ghost use Rattle.std.specs.Prelude.{◌≡◌};
ghost use Rattle.tw_base.specs.history.Anchors.{anchor_of, is_at as is_at_of};

use crate::history::thread::Thread;
use crate::kinds::name::Name;

/// Whether the thread is of this service and step.
fn is_at(thread: &Thread, service: &Name, step: u64) -> bool
    ensures { result ≡ is_at_of service.now step thread.now }
{
    thread.from == *service && thread.step == step
}

/// The anchor of this service and step, the first where there are several.
pub fn find_anchor(anchors: &[Thread], service: &Name, step: u64) -> Option<Thread>
    // The anchor of a service and step is the first of these in the list.
    ensures { result ≡ anchor_of anchors.now service.now step }
{
    for thread in anchors {
        if is_at(thread, service, step) {
            return Some(*thread);
        }
    }
    None
}
