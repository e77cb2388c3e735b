// Evidence of a fork as a value: two proofs of received threads, and a path between their steps.

use tw_base::Digest;
use tw_chain::ThreadProof;
use tw_skipproof::Path;

/// Evidence that no one history of a service has both of two threads. The first proof is that a thread of
/// the service at a step k was received, and the second one the same of a step m of it, from k on. The path
/// leads from step m down to step k. Where it climbs from the bottom to the second thread, the bottom is the
/// authenticator at step k of each history that has this thread: so none that has it has the first thread,
/// where that one's authenticator is another.
#[derive(Drop, Debug)]
pub struct Evidence {
    pub first: ThreadProof,
    pub second: ThreadProof,
    pub bottom: Digest,
    pub link: Path,
}
