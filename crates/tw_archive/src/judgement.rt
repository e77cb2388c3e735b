// What becomes of a message by a service's archive; a follower, which has none, judges in `tw_follow`.

use tw_base::Digest;

/// What becomes of a message of another service, by what an archive has of that service. `Forked`, `Stale` and `BadLink`
/// are answered as the service's `Refusal` of the same name; a follower answers its own `FollowRefusal`.
#[derive(Clone, Copy, PartialEq, Eq, Debug, Drop)]
pub enum Judgement {
    /// The archive has the thread: this step received it.
    Known {
        archived: u64,
    },
    /// The archive has another authenticator of that step.
    Forked {
        step: u64,
        kept: Digest,
        offered: Digest,
    },
    /// The archive hasn't the step, and it is below the service's last one there, which is told.
    Stale {
        last: u64,
    },
    /// The link doesn't begin at the service's last step in the archive (0 where it has none), or doesn't climb from
    /// the authenticator that is kept of it, which for step 0 is the genesis digest.
    BadLink {
        last: u64,
        kept: Digest,
    },
    /// The thread is to be archived.
    Accept,
}
