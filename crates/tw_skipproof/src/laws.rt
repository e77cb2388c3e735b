// The laws of paths, openings and existence proofs, on which the layers above build.

ghost use Rattle.std.specs.Prelude.{◌≡◌, ℕ, ◌^◌, ◌<◌, ◌≤◌, List, length};
ghost use Rattle.tw_base.specs.declared.kinds.limits.TheConstants.{LAST_STEP};
ghost use Rattle.tw_base.specs.history.Auth.{auth};
ghost use Rattle.tw_base.specs.format.Codecs.{IsUnambiguous};
ghost use Rattle.tw_base.specs.format.Formats.{Spells, WrittenAs};
ghost use Rattle.tw_base.specs.history.History.{History};
ghost use Rattle.tw_base.specs.history.Sound.{IsSound};
ghost use Rattle.tw_base.specs.kinds.Levels.{top_level};
ghost use Rattle.tw_skipproof.specs.declared.existence.ExistenceProof.{ExistenceProof};
ghost use Rattle.tw_skipproof.specs.declared.existence.Part.{Part};
ghost use Rattle.tw_skipproof.specs.declared.opening.Opening.{Opening};
ghost use Rattle.tw_skipproof.specs.declared.path.Link.{Link};
ghost use Rattle.tw_skipproof.specs.Acceptance.{IsAcceptedUnder, Reaches};
ghost use Rattle.tw_skipproof.specs.Codecs.{existence_codec, opening_bytes, opening_codec, path_bytes, path_codec};
ghost use Rattle.tw_skipproof.specs.Existence.{IsExistenceInRange, IsShaped, existence_bytes, existence_layout};
ghost use Rattle.tw_skipproof.specs.HistoryProofs.{IsExistenceOf, IsOpeningOf, IsPartOfHistory, IsPathOf};
ghost use Rattle.tw_skipproof.specs.Openings.{IsOpeningAt, opening_auth};
ghost use Rattle.tw_skipproof.specs.Paths.{HasShape, climbed};

use tw_base::Hasher;

/// What the layouts spell: a value's one spelling is what the writers write, and it has the links
/// and numbers of labels that climbing and checking ask for. A path has at most 53,760 bytes,
/// and an existence proof at most 56,505.
pub fn spelling_laws()
    // An opening has one spelling, the one that `write_opening` writes.
    ensures opening { (step : ℕ) → IsUnambiguous (opening_codec 0 step) × WrittenAs (opening_codec 0 step).format opening_bytes }
    ensures opening_labels { (step : ℕ) (bytes : List ℕ) (o : Opening) → Spells (opening_codec 0 step).format bytes o → length o.others ≡ top_level step }
    // A path has one spelling, the one that `write_path` writes.
    ensures path { (from to : ℕ) → IsUnambiguous (path_codec from to) × WrittenAs (path_codec from to).format path_bytes }
    ensures path_shape { (from to : ℕ) (bytes : List ℕ) (links : List Link) → Spells (path_codec from to).format bytes links → HasShape links from to }
    // A path from any step has at most 53,760 bytes.
    ensures path_size { (from to : ℕ) (bytes : List ℕ) (links : List Link) → from ≤ LAST_STEP → Spells (path_codec from to).format bytes links → length bytes < 53761 }
    // An existence proof has one spelling.
    ensures existence { IsUnambiguous existence_codec }
    // An existence proof has at most 56,505 bytes, so a longer file spells none.
    ensures existence_size { (bytes : List ℕ) (p : ExistenceProof) → Spells existence_layout bytes p → length bytes ≤ 56505 }
    ensures existence_shape { (bytes : List ℕ) (p : ExistenceProof) → Spells existence_layout bytes p → IsShaped p × IsExistenceInRange p }
{}

/// A history's own openings and paths compute its authenticators. Its own proof of an event, under
/// a top that isn't below the event's step, is accepted under its authenticator of the top; where
/// the history is sound and has the top, what `write_existence` writes of the proof spells it.
pub fn making_laws<H: Hasher>()
    // The opening that a history makes of a step computes that history's authenticator of the step.
    ensures opening { (h : History) (step : ℕ) (o : Opening) → 0 < step → IsOpeningOf H.dig h step o →
        IsOpeningAt step o × (opening_auth H.dig step o ≡ auth H.dig h step) }
    // The path that a history makes computes that history's authenticator of the upper step from that of the lower one.
    ensures path { (h : History) (links : List Link) (from to : ℕ) → to ≤ from → IsPathOf H.dig h links from to →
        HasShape links from to × (climbed H.dig links from to (auth H.dig h to) ≡ auth H.dig h from) }
    // The part that a history has of a step, under a top that isn't below it, leads to its authenticator of the top.
    ensures part { (h : History) (step top : ℕ) (at : Part) → 0 < step → step ≤ top → IsPartOfHistory H.dig h step top at →
        Reaches H.dig at (auth H.dig h top) }
    // A history's own proof of an event, under a top that isn't below its step, is accepted under its authenticator of
    // the top.
    ensures existence { (h : History) (step index top : ℕ) (p : ExistenceProof) → step ≤ top → IsExistenceOf H.dig h step index top p →
        IsAcceptedUnder H.dig (auth H.dig h top) p }
    // The proof that a sound history makes under a top that it has is within the limits of its format.
    ensures within { (h : History) (step index top : ℕ) (p : ExistenceProof) →
        IsSound h → step ≤ top → top ≤ length h.steps → IsExistenceOf H.dig h step index top p →
        IsExistenceInRange p × IsShaped p × (length p.event.event < 2 ^ 32) }
    // What is written of such a proof spells it.
    ensures spelled { (h : History) (step index top : ℕ) (p : ExistenceProof) →
        IsSound h → step ≤ top → top ≤ length h.steps → IsExistenceOf H.dig h step index top p →
        Spells existence_layout (existence_bytes p) p }
{}
