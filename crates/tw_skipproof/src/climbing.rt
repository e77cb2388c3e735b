// Climbing a path: the authenticator of its upper step, computed over its links from that of the lower one.

ghost use Rattle.std.specs.Prelude.{◌≡◌, ℕ, ◌+◌, ◌-◌, ◌^◌, ◌<◌, ◌≤◌, List, [], ◌∷◌, ◌++◌, length, MatchOption, IfSome};
ghost use Rattle.tw_base.specs.declared.kinds.limits.TheConstants.{LAST_STEP};
ghost use Rattle.tw_base.specs.history.Auth.{auth};
ghost use Rattle.tw_base.specs.kinds.Bytes.{HasBytes};
ghost use Rattle.tw_base.specs.kinds.Clash.{OrClash};
ghost use Rattle.tw_base.specs.kinds.Digests.{AllDigests};
ghost use Rattle.tw_base.specs.kinds.Handing.{Hands};
ghost use Rattle.tw_base.specs.history.History.{History};
ghost use Rattle.tw_base.specs.history.HistoryTexts.{history_texts};
ghost use Rattle.tw_base.specs.history.Sound.{IsSound};
ghost use Rattle.tw_skipproof.specs.Paths.{HasLinkSizes, HasShape, climb_auth_text, climb_link_text, climbed, path_texts};

use crate::hop::level_of_hop;
use crate::path::{Link, Path};
use arrayvec::ArrayVec;
use tw_base::{
    Digest, Hasher, Transcript, Unwritten, authenticator_told, link_label_told, power_of_two, put,
    see_digest, top_level,
};

/// The authenticator of the step that the link leaves at this level; the label and the authenticator are
/// handed on.
fn link_authenticator<T: Transcript>(
    link: &Link,
    step: u64,
    level: u8,
    below: &Digest,
    texts: &mut T,
) -> Digest
    requires count { length link.now.others < 40 }
    requires level { level ≤ length link.now.others }
    ensures value { result ≡ T.dig (climb_auth_text T.dig link.now step level below.now) }
    ensures took { Hands T.took texts.old texts.new
        (climb_link_text T.dig link.now step level below.now ∷ climb_auth_text T.dig link.now step level below.now ∷ []) }
    ensures datum_size { HasBytes 32 link.now.datum }
    ensures sizes { AllDigests link.now.others }
{
    see_digest(&link.datum);
    let label = link_label_told(step, level, &link.datum, below, texts);
    let (lower, upper) = link.others.as_slice().split_at(level as usize);
    let mut labels: ArrayVec<Digest, 40> = ArrayVec::new();
    put(&mut labels, lower);
    labels.push(label);
    put(&mut labels, upper);
    authenticator_told(step, labels.as_slice(), texts)
}

/// The authenticator of the upper step, computed upwards over the links; the texts are handed on from the
/// bottom upwards.
fn climb_links<T: Transcript>(
    links: &[Link],
    from: u64,
    to: u64,
    bottom: &Digest,
    texts: &mut T,
) -> Option<Digest>
    requires { from ≤ LAST_STEP }
    ensures answer { MatchOption result (HasShape links.now from to → ⊥)
        (λ d. HasShape links.now from to × (d ≡ climbed T.dig links.now from to bottom.now)) }
    ensures took { IfSome result (λ _. Hands T.took texts.old texts.new (path_texts T.dig links.now from to bottom.now)) }
    ensures sizes { IfSome result (λ _. HasLinkSizes links.now) }
{
    match links.split_first() {
        None => { if from <= to { Some(*bottom) } else { None } }
        Some((link, rest)) => {
            if from <= to || link.others.len() != top_level(from) as usize {
                return None;
            }
            let level = level_of_hop(from, to);
            match climb_links(rest, from - power_of_two(level), to, bottom, texts) {
                None => None,
                Some(below) => Some(link_authenticator(link, from, level, &below, texts)),
            }
        }
    }
}

/// The authenticator that `climb` computes, by the same links; each text is handed on, from the bottom upwards.
pub fn climb_told<T: Transcript>(
    path: &Path,
    from: u64,
    to: u64,
    bottom: &Digest,
    texts: &mut T,
) -> Option<Digest>
    requires from { from ≤ LAST_STEP }
    // A climb answers exactly where the path has the links of the greedy path, each with its number of labels, and
    // computes the authenticator upwards.
    ensures answer { MatchOption result (HasShape path.now.links from to → ⊥)
        (λ d. HasShape path.now.links from to × (d ≡ climbed T.dig path.now.links from to bottom.now)) }
    // Where it answers, the texts of the path are handed on.
    ensures took { IfSome result (λ _. Hands T.took texts.old texts.new (path_texts T.dig path.now.links from to bottom.now)) }
{
    climb_links(path.links.as_slice(), from, to, bottom, texts)
}

/// The authenticator of the step `from` (at most 2^40 - 1), computed upwards over the path's links
/// from `bottom`, the authenticator of the step `to`. Each text is hashed once, no memory is taken.
/// None exactly where the path hasn't the links and the numbers of labels of the greedy path between
/// these two steps; a path without links between a step and itself or a later one answers `bottom`.
///
/// Where it is the authenticator of `from` in a sound history, `bottom` is that of `to`, or two
/// texts that the path and the history hash clash.
pub fn climb<H: Hasher>(path: &Path, from: u64, to: u64, bottom: &Digest) -> Option<Digest>
    requires { from ≤ LAST_STEP }
    // A *climb* goes up a path from a step's authenticator. It answers exactly where the path has the links of the
    // greedy path, each with its number of labels, and computes the authenticator upwards.
    ensures answer { MatchOption result (HasShape path.now.links from to → ⊥)
        (λ d. HasShape path.now.links from to × (d ≡ climbed H.dig path.now.links from to bottom.now)) }
    // Where a climb reaches the authenticator of a sound history, its bottom is that history's authenticator of the
    // lower step, or two texts of the history and of the climb clash.
    ensures binds { IfSome result (λ d. (h : History) → IsSound h → to ≤ from → from ≤ length h.steps → d ≡ auth H.dig h from →
        OrClash H.dig (history_texts H.dig h ++ path_texts H.dig path.now.links from to bottom.now) (bottom.now ≡ auth H.dig h to)) }
{
    see_digest(bottom);
    let mut texts = Unwritten::<H>::new();
    climb_links(path.links.as_slice(), from, to, bottom, &mut texts)
}
