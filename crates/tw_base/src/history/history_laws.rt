// The laws of histories, of their archives and of clashes.

ghost use Rattle.std.specs.Prelude.{◌≡◌, ◌⊎◌, ℕ, suc, ◌≤◌, ◌↔◌, List, [], ◌++◌, length, IsSome, None, Some};
ghost use Rattle.tw_base.specs.history.Auth.{auth};
ghost use Rattle.tw_base.specs.kinds.Clash.{Clash, Pair, Within, clash_pair};
ghost use Rattle.tw_base.specs.history.Asking.{IsGreatestBelow, IsLeastAbove, entry_with, first_above, last_below, with_entry};
ghost use Rattle.tw_base.specs.history.Entries.{KeyBelow, key_of};
ghost use Rattle.tw_base.specs.history.Family.{AllSound, family_texts};
ghost use Rattle.tw_base.specs.history.History.{History, Step, plus, received, time_at, times};
ghost use Rattle.tw_base.specs.history.HistoryTexts.{history_texts, tree_texts};
ghost use Rattle.tw_base.specs.history.Limits.{IsTimeWithinLimits};
ghost use Rattle.tw_base.specs.kinds.Bytes.{AreBytes};
ghost use Rattle.tw_base.specs.kinds.Lists.{Each, In};
ghost use Rattle.tw_base.specs.history.Sound.{IsSound};
ghost use Rattle.tw_base.specs.history.Tree.{IsRising, IsRisingTree, Tree, entries, tree};
ghost use Rattle.tw_base.specs.history.Tree.Tree.{Empty};
ghost use Rattle.tw_base.specs.declared.history.thread.Entry.{Entry};
ghost use Rattle.tw_base.specs.declared.history.thread.Key.{Key};

use crate::kinds::hasher::Hasher;

/// The archive of a sound history after a step is a rising tree of exactly the threads received up
/// to that step, and its texts are texts of the history; before the first step it is empty.
pub fn archive_laws<H: Hasher>()
    // The archive of a sound history is a rising tree.
    ensures rising { (h : History) → IsSound h → (i : ℕ) → IsRisingTree (tree h i) }
    // The archive of a sound history has each thread that was received.
    ensures has { (h : History) → IsSound h → (i : ℕ) → i ≤ length h.steps → (e : Entry) → In e (received h i) → In e (entries (tree h i)) }
    // An archive has only threads that were received.
    ensures only { (h : History) (i : ℕ) (e : Entry) → In e (entries (tree h i)) → In e (received h i) }
    // The texts of an archive's label are texts of the history.
    ensures texts { (h : History) (i : ℕ) → i ≤ length h.steps → Within (tree_texts H.dig (tree h i)) (history_texts H.dig h) }
    // Before the first step the archive is empty.
    ensures first { (h : History) → tree h 0 ≡ Empty }
{}

/// What the list of an archive's entries answers, where their keys rise.
pub fn asking_laws()
    // A list with one more entry has one more.
    ensures size { (es : List Entry) (e : Entry) → length (with_entry es e) ≡ suc (length es) }
    // It has that entry and those of the list, and no others.
    ensures members { (es : List Entry) (e f : Entry) → In f (with_entry es e) ↔ ((f ≡ e) ⊎ In f es) }
    // Where no entry of a rising list has its key, the list with it rises.
    ensures order { (es : List Entry) (e : Entry) → IsRising es → entry_with es (key_of e) ≡ None → IsRising (with_entry es e) }
    // The last entry below a key is in the list, is below it, and is the greatest that is.
    ensures below { (es : List Entry) (key : Key) (e : Entry) → IsRising es → last_below es key ≡ Some e → IsGreatestBelow es key e }
    // Where there is none, no entry of the list is below the key.
    ensures none_below { (es : List Entry) (key : Key) → IsRising es → last_below es key ≡ None →
        (f : Entry) → In f es → KeyBelow (key_of f) key → ⊥ }
    // The first entry above a key is in the list, is above it, and is the least that is.
    ensures above { (es : List Entry) (key : Key) (e : Entry) → IsRising es → first_above es key ≡ Some e → IsLeastAbove es key e }
    // Where there is none, no entry of the list is above the key.
    ensures none_above { (es : List Entry) (key : Key) → first_above es key ≡ None →
        (f : Entry) → In f es → KeyBelow key (key_of f) → ⊥ }
{}

/// All that the authenticators of sound histories hash is bytes.
pub fn text_laws<H: Hasher>()
    // Each text of a sound history is bytes.
    ensures history { (h : History) → IsSound h → Each AreBytes (history_texts H.dig h) }
    // So is each text of a family of sound histories.
    ensures family { (family : List History) → AllSound family → Each AreBytes (family_texts H.dig family) }
{}

/// One more step changes no tree, no time and no authenticator of an earlier step, of any history, sound or
/// not.
pub fn plus_laws<H: Hasher>()
    // One more step changes no earlier tree.
    ensures trees { (h : History) (s : Step) (i : ℕ) → i ≤ length h.steps → tree (plus h s) i ≡ tree h i }
    // One more step changes no earlier authenticator.
    ensures authenticators { (h : History) (s : Step) (i : ℕ) → i ≤ length h.steps → auth H.dig (plus h s) i ≡ auth H.dig h i }
    // One more step changes nothing of what was received before.
    ensures received { (h : History) (s : Step) (i : ℕ) → i ≤ length h.steps → received (plus h s) i ≡ received h i }
    // One more step changes nothing of the times before it.
    ensures times { (h : History) (s : Step) (i : ℕ) → i ≤ length h.steps → times (plus h s) i ≡ times h i }
{}

/// In a sound history a step's time is at most 2^40 - 1, and at least that of each earlier step.
pub fn time_laws()
    // The time of a step of a sound history is at most 2^40 - 1.
    ensures limit { (h : History) → IsSound h → (i : ℕ) → IsTimeWithinLimits (time_at h i) }
    // In a sound history no step has a time below that of an earlier step.
    ensures order { (h : History) → IsSound h → (i j earlier later : ℕ) → i ≤ j →
        time_at h i ≡ Some earlier → time_at h j ≡ Some later → earlier ≤ later }
{}

/// The ordered pair of a list of texts, each of bytes, is there exactly where two texts of the list clash, and is two
/// such texts.
pub fn clash_laws<H: Hasher>()
    // A pair that is picked of a list of texts, each of bytes, clashes.
    ensures some { (texts : List (List ℕ)) → Each AreBytes texts → (p : Pair) → clash_pair H.dig texts ≡ Some p →
        (c : Clash H.dig texts) × (c.one ≡ p.one) × (c.other ≡ p.other) }
    // Texts that clash are bytes.
    ensures bytes { (texts : List (List ℕ)) (c : Clash H.dig texts) → AreBytes c.one × AreBytes c.other }
    // Where none is picked, no two texts of the list clash.
    ensures none { (texts : List (List ℕ)) → clash_pair H.dig texts ≡ None → Clash H.dig texts → ⊥ }
{}
