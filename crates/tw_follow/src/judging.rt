// Judging a message that a follower is offered, by its head alone; a service judges by its archive, in `tw_archive`.

ghost use Rattle.std.specs.Prelude.{◌≡◌};
ghost use Rattle.tw_msg.specs.Messages.{IsLinked};
ghost use Rattle.tw_follow.specs.Offers.{judged_offer, leads_from_head};

use tw_base::{FollowRefusal, Hasher, Thread};
use tw_msg::Message;
use tw_skipproof::climb;

/// What becomes of a message that isn't refused.
#[derive(Clone, Copy, Debug, PartialEq, Eq, Drop)]
pub enum Offered {
    /// It is the head.
    Known,
    /// It is a later head.
    Moves { head: Thread },
}

/// Whether the message's link leads down to the head's step, and climbs from the head's authenticator to the
/// message's.
fn climbs_from_head<H: Hasher>(head: &Thread, message: &Message) -> bool
    requires { IsLinked message.now }
    ensures { result ≡ leads_from_head H.dig head.now message.now }
{
    if message.since != head.step {
        return false;
    }
    match climb::<H>(
        &message.link,
        message.thread.step,
        message.since,
        &head.auth,
    ) {
        Some(reached) => reached == message.thread.auth,
        None => false,
    }
}

/// What becomes of a message over a head. The first line that fits decides:
///
/// - it is of another service: `Other`;
/// - its step is below the head's: `Stale`;
/// - it is of the head's step, with the head's authenticator: `Known`;
/// - it is of the head's step, with another one: `Forked`;
/// - its link doesn't lead down to the head's step, or doesn't climb from the head's authenticator: `BadLink`;
/// - otherwise `Moves`.
#[tactic(auto, unfolding(crate::specs::Offers::judged_offer))]
pub(crate) fn judge<H: Hasher>(head: &Thread, message: &Message) -> Result<Offered, FollowRefusal>
    requires { IsLinked message.now }
    ensures { result ≡ judged_offer H.dig head.now message.now }
{
    let thread = &message.thread;
    if thread.from != head.from {
        return Err(FollowRefusal::Other { name: thread.from });
    }
    if thread.step < head.step {
        return Err(FollowRefusal::Stale { last: head.step });
    }
    if thread.step == head.step {
        if thread.auth == head.auth {
            return Ok(Offered::Known);
        }
        return Err(FollowRefusal::Forked {
            step: head.step,
            kept: head.auth,
            offered: thread.auth,
        });
    }
    if climbs_from_head::<H>(head, message) {
        return Ok(Offered::Moves { head: *thread });
    }
    Err(FollowRefusal::BadLink {
        last: head.step,
        kept: head.auth,
    })
}
