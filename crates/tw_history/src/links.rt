// The labels of a step's links, over the authenticators that a pass keeps; tw_skiplist/src/records.rt has those of a step's page.

ghost use Rattle.std.specs.Prelude.{◌≡◌, ℕ, suc, ◌<◌, ◌≤◌, List, [], ◌++◌, drop, map, replicate, slice_index_or};
ghost use Rattle.tw_base.specs.declared.kinds.limits.TheConstants.{LAST_STEP};
ghost use Rattle.tw_base.specs.history.Auth.{link_texts};
ghost use Rattle.tw_base.specs.kinds.Levels.{top_level as top_level_of};
ghost use Rattle.tw_base.specs.kinds.Handing.{Hands};
ghost use Rattle.tw_history.specs.Links.{AreReached};

use arrayvec::ArrayVec;
use tw_base::{Digest, Transcript, link_label_told, top_level};

/// The authenticator that is kept at this level (0 to 39).
pub(crate) fn at_level(latest: &[Digest; 40], level: u8) -> &Digest
    requires { level < 40 }
    ensures { result.now ≡ slice_index_or latest.now level [] }
{
    &latest[level as usize]
}

/// The labels of the step's links from level 0 on, over the authenticators that they lead to.
pub(crate) fn link_labels<T: Transcript>(
    step: u64,
    datum: &Digest,
    latest: &[Digest; 40],
    texts: &mut T,
) -> ArrayVec<Digest, 40>
    requires from_1 { 0 < step }
    requires step { step ≤ LAST_STEP }
    // The labels are the digests of the texts of the step's links, over the authenticators that they lead to.
    ensures labels { (earlier : List (List ℕ)) → AreReached step earlier latest.now →
        result.items ≡ map T.dig (link_texts T.dig datum.now earlier step (suc (top_level_of step))) }
    // These texts are handed on, from level 0 on.
    ensures took { (earlier : List (List ℕ)) → AreReached step earlier latest.now →
        Hands T.took texts.old texts.new (link_texts T.dig datum.now earlier step (suc (top_level_of step))) }
{
    let mut labels: ArrayVec<Digest, 40> = ArrayVec::new();
    for level in 0..top_level(step) + 1 {
        let label = link_label_told(step, level, datum, at_level(latest, level), texts);
        labels.push(label);
    }
    labels
}

/// Keeps the step's authenticator at each level whose power of two divides the step.
pub(crate) fn keep_auth(latest: &mut [Digest; 40], step: u64, auth: Digest)
    requires from_1 { 0 < step }
    requires step { step ≤ LAST_STEP }
    ensures { latest.new ≡ replicate (suc (top_level_of step)) auth ++ drop (suc (top_level_of step)) latest.old }
{
    let levels = top_level(step) as usize + 1;
    latest[..levels].fill(auth);
}
