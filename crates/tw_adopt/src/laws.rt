// The laws of histories that are the same up to a step, and of taking over a history.

ghost use Rattle.std.specs.Prelude.{◌≡◌, ◌⊎◌, ◌≤◌, ◌++◌, ◌∷◌, ℕ, List, length, Ok, Err, Result, IfErr};
ghost use Rattle.tw_base.specs.declared.history.thread.Thread.{Thread};
ghost use Rattle.tw_base.specs.history.Auth.{auth};
ghost use Rattle.tw_base.specs.history.History.{History};
ghost use Rattle.tw_base.specs.history.HistoryCodec.{history_bytes};
ghost use Rattle.tw_base.specs.history.HistoryTexts.{history_texts};
ghost use Rattle.tw_base.specs.history.Sound.{IsSound};
ghost use Rattle.tw_base.specs.kinds.Clash.{OrClash};
ghost use Rattle.tw_adopt.specs.Adopting.{AreGood, IsAdoption, IsFirstFault, adopted_by, furthest};
ghost use Rattle.tw_adopt.specs.HistoryFronts.{Same, first_steps};
ghost use Rattle.tw_adopt.specs.declared.adopted.AdoptFault.{AdoptFault};
ghost use Rattle.tw_adopt.specs.declared.adopted.AdoptFault.TheVariants.{NoMemory};
ghost use Rattle.tw_adopt.specs.declared.adopted.Adopted.{Adopted};
ghost use Rattle.tw_adopt.specs.declared.receiving.Receiving.{Receiving};

use tw_base::Hasher;

/// What an authenticator says of a history: all that it stands for.
pub fn same_laws<H: Hasher>()
    // Two sound histories that have one authenticator at a step that both have are of one service, and have the same contents,
    // times and trees of the archive at each step up to there; or two different texts of theirs, both of bytes, have one digest.
    ensures same { (h other : History) (step : ℕ) → IsSound h → IsSound other → step ≤ length h.steps → step ≤ length other.steps →
        auth H.dig h step ≡ auth H.dig other step → OrClash H.dig (history_texts H.dig h ++ history_texts H.dig other) (Same h other step) }
{}

/// What the first steps of a history keep of it.
pub fn first_steps_laws<H: Hasher>()
    // The first steps of a sound history are sound.
    ensures sound { (h : History) (count : ℕ) → IsSound h → IsSound (first_steps h count) }
    // They are the same as the history up to each of them, and have its authenticator there.
    ensures same { (h : History) (count step : ℕ) → step ≤ count → step ≤ length h.steps →
        Same h (first_steps h count) step × (auth H.dig (first_steps h count) step ≡ auth H.dig h step) }
    // Their file isn't longer than the history's.
    ensures short { (h : History) (count : ℕ) → length (history_bytes (first_steps h count)) ≤ length (history_bytes h) }
{}

/// That one answer comes of the proofs of a history, but for want of memory: so much taken over, where each is good, and else the
/// first fault.
pub fn adopt_laws<H: Hasher>()
    // Of any proofs each is good, or there is a first that has a fault, each before it being good.
    ensures either { (anchors : List Thread) (h : History) (proofs : List (List ℕ)) →
        ((shown : List Receiving) × AreGood H.dig anchors h proofs shown) ⊎ ((fault : AdoptFault) × IsFirstFault H.dig anchors h 1 proofs fault) }
    // Where each is good, none has a fault.
    ensures good { (anchors : List Thread) (h : History) (proofs : List (List ℕ)) (shown : List Receiving) (fault : AdoptFault) →
        AreGood H.dig anchors h proofs shown → IsFirstFault H.dig anchors h 1 proofs fault → ⊥ }
    // Where each is good, the history is taken over as far as the furthest that they show, or there was no memory.
    ensures taken { (anchors : List Thread) (h : History) (proofs : List (List ℕ)) (first : Receiving) (rest : List Receiving) (result : Result Adopted AdoptFault) →
        AreGood H.dig anchors h proofs (first ∷ rest) → IsAdoption H.dig anchors h proofs result →
        (result ≡ Ok (adopted_by h (furthest first rest))) ⊎ (result ≡ Err NoMemory) }
    // Where one has a fault, each before it being good, this fault is told, or there was no memory.
    ensures faulty { (anchors : List Thread) (h : History) (proofs : List (List ℕ)) (fault : AdoptFault) (result : Result Adopted AdoptFault) →
        IsFirstFault H.dig anchors h 1 proofs fault → IsAdoption H.dig anchors h proofs result → (result ≡ Err fault) ⊎ (result ≡ Err NoMemory) }
    // Where none has a fault, the history is taken over, or there was no memory.
    ensures complete { (anchors : List Thread) (h : History) (proofs : List (List ℕ)) (result : Result Adopted AdoptFault) →
        ((fault : AdoptFault) → IsFirstFault H.dig anchors h 1 proofs fault → ⊥) → IsAdoption H.dig anchors h proofs result → IfErr result (λ fault. fault ≡ NoMemory) }
{}
