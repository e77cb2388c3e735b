// Openings: what the authenticator of a step is made of.

ghost use Rattle.std.specs.Prelude.{◌≡◌, ℕ, ◌+◌, ◌^◌, ◌<◌, ◌≤◌, List, ◌++◌, length, MatchOption, IfSome};
ghost use Rattle.tw_base.specs.declared.kinds.limits.TheConstants.{LAST_STEP};
ghost use Rattle.tw_base.specs.history.Auth.{auth};
ghost use Rattle.tw_base.specs.kinds.Clash.{OrClash};
ghost use Rattle.tw_base.specs.kinds.Handing.{Hands};
ghost use Rattle.tw_base.specs.history.History.{History};
ghost use Rattle.tw_base.specs.history.HistoryTexts.{history_texts};
ghost use Rattle.tw_base.specs.history.Sound.{IsSound};
ghost use Rattle.tw_skipproof.specs.Openings.{Binds, HasOpeningSizes, IsOpeningAt, opening_auth, opening_texts};

use arrayvec::ArrayVec;
use tw_base::{
    Digest, Hasher, Labels, Transcript, Unwritten, authenticator_told, link_label_told, put,
    see_digest, step_datum_told, top_level,
};

/// The fields behind the authenticator of a step from 1 on: the root of its events, the label of
/// its archive, its count of events, the time in seconds that its maker claims, if any, the
/// authenticator of the step before it, and the labels of its links at the levels from 1 on. The
/// format bounds the count and the time: an opening with greater ones has no spelling.
#[derive(Drop, Debug)]
pub struct Opening {
    pub event_root: Digest,
    pub archive_root: Digest,
    pub count: u32,
    pub time: Option<u64>,
    pub prev: Digest,
    pub others: Labels,
}

/// The authenticator that the opening computes at the step; its texts are handed on: the datum, the label of
/// level 0, and the authenticator.
#[tactic(auto, unfolding(crate::specs::Openings::opening_auth))]
pub fn opening_auth_told<T: Transcript>(opening: &Opening, step: u64, texts: &mut T) -> Digest
    requires { length opening.now.others < 40 }
    // The authenticator is the one that the opening stands for.
    ensures auth { result ≡ opening_auth T.dig step opening.now }
    // The texts of the opening are handed on.
    ensures took { Hands T.took texts.old texts.new (opening_texts T.dig step opening.now) }
    ensures sizes { HasOpeningSizes opening.now }
{
    see_digest(&opening.event_root);
    see_digest(&opening.archive_root);
    see_digest(&opening.prev);
    let datum = step_datum_told(
        &opening.event_root,
        &opening.archive_root,
        opening.count,
        opening.time,
        texts,
    );
    let first = link_label_told(step, 0, &datum, &opening.prev, texts);
    let mut labels: ArrayVec<Digest, 40> = ArrayVec::new();
    labels.push(first);
    put(&mut labels, opening.others.as_slice());
    authenticator_told(step, labels.as_slice(), texts)
}

/// The authenticator that the opening computes; for the proof of `check_opening` a clause tells the sizes of what was hashed, too.
fn computed<H: Hasher>(opening: &Opening, step: u64) -> Option<Digest>
    requires { step ≤ LAST_STEP }
    ensures answer { MatchOption result (IsOpeningAt step opening.now → ⊥)
        (λ d. IsOpeningAt step opening.now × (d ≡ opening_auth H.dig step opening.now)) }
    ensures sizes { IfSome result (λ _. HasOpeningSizes opening.now) }
{
    if step == 0 || opening.others.len() != top_level(step) as usize {
        return None;
    }
    Some(opening_auth_told(opening, step, &mut Unwritten::<H>::new()))
}

/// The authenticator that the opening computes at the step (at most 2^40 - 1), each text hashed
/// once and no memory taken. None exactly where the step is 0, or the opening has another number of
/// labels than the step has levels from 1 on.
///
/// Where it is the step's authenticator in a sound history, the opening's fields are the history's,
/// or two texts that the opening and the history hash clash.
pub fn check_opening<H: Hasher>(opening: &Opening, step: u64) -> Option<Digest>
    requires { step ≤ LAST_STEP }
    // An *opening* has what a step's authenticator is made of. Checking it answers exactly where the step is above 0
    // and the number of labels is the step's, with the authenticator that it computes.
    ensures answer { MatchOption result (IsOpeningAt step opening.now → ⊥)
        (λ d. IsOpeningAt step opening.now × (d ≡ opening_auth H.dig step opening.now)) }
    ensures sizes { IfSome result (λ _. HasOpeningSizes opening.now) }
    // Where an opening computes the authenticator of a sound history, its event root, archive label, count, time (or
    // that there is none) and previous authenticator are the history's, or two texts of the history and of the opening
    // clash.
    ensures binds { IfSome result (λ d. (h : History) → IsSound h → step ≤ length h.steps → d ≡ auth H.dig h step →
        OrClash H.dig (history_texts H.dig h ++ opening_texts H.dig step opening.now) (Binds H.dig h step opening.now)) }
{
    computed::<H>(opening, step)
}
