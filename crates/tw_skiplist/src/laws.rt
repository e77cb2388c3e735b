// The laws of pages that keep a history, and of what is read of them, on which the service builds.

ghost use Rattle.std.specs.Prelude.{◌≡◌, ℕ, suc, ◌+◌, ◌<◌, ◌≤◌, ◌^◌, List, [], ◌++◌, length, Option, Some};
ghost use Rattle.tw_disk.specs.declared.limits.TheConstants.{FIRST_PAGE};
ghost use Rattle.tw_disk.specs.Image.{Image};
ghost use Rattle.tw_base.specs.declared.history.content.Content.{Content};
ghost use Rattle.tw_base.specs.declared.history.root.Root.{Root};
ghost use Rattle.tw_base.specs.declared.kinds.limits.TheConstants.{LAST_STEP};
ghost use Rattle.tw_base.specs.history.Auth.{auth, tree_label};
ghost use Rattle.tw_base.specs.history.History.{History, Step, events_at, plus, step_at};
ghost use Rattle.tw_base.specs.history.Tree.{tree};
ghost use Rattle.tw_skipproof.specs.HistoryProofs.{IsPathOf};
ghost use Rattle.tw_skipproof.specs.declared.path.Path.{Path};
ghost use Rattle.tw_skiplist.specs.declared.head.Head.{Head};
ghost use Rattle.tw_skiplist.specs.declared.info.StepInfo.{StepInfo};
ghost use Rattle.tw_skiplist.specs.declared.info.StepLink.{StepLink};
ghost use Rattle.tw_skiplist.specs.declared.info.StepProof.{StepProof};
ghost use Rattle.tw_skiplist.specs.Appended.{appended, bare_step};
ghost use Rattle.tw_skiplist.specs.Events.{events_of_info};
ghost use Rattle.tw_disk.specs.Found.Found.{Is};
ghost use Rattle.tw_skiplist.specs.Infos.{IsInfoOf};
ghost use Rattle.tw_skiplist.specs.Keeping.{AreAlike, GoOn, Keeps, MayBeKept, Place, place_of_step};
ghost use Rattle.tw_skiplist.specs.StepRecords.{content_of, found_records, record_at, records_down};
ghost use Rattle.tw_skiplist.specs.Readings.{found_events, found_link, found_proof, found_skip_path, found_step};

use tw_base::Hasher;

/// Pages keep a history of no step under the head with step 0, the authenticator of its name and
/// page 0. They go on keeping a history when more pages follow them, at the same places. The head's page
/// is one of them, or 0 for step 0. Under one head they keep histories that differ by name, new nodes and roots
/// alone.
pub fn keeping_laws<H: Hasher>()
    // Under the head of step 0 with the name's authenticator pages keep the history without steps.
    ensures first { (ps : Image) (h : History) (head : Head)
        → h.steps ≡ [] → head.step ≡ 0 → head.auth ≡ auth H.dig h 0 → head.page ≡ 0 → Keeps H.dig ps h head }
    // Pages that keep a history go on keeping it when more pages follow, at the same places.
    ensures more { (ps more : Image) (h : History) (head : Head) → (kept : Keeps H.dig ps h head)
        → (still : Keeps H.dig (ps ++ more) h head) × (still.places ≡ kept.places) }
    // The page of a head is 0 at step 0.
    ensures no_page { (ps : Image) (h : History) (head : Head) → Keeps H.dig ps h head → head.step ≡ 0 → head.page ≡ 0 }
    // The page of a head above step 0 is one of the pages.
    ensures page { (ps : Image) (h : History) (head : Head) → Keeps H.dig ps h head → 0 < head.step
        → (FIRST_PAGE ≤ head.page) × (head.page < FIRST_PAGE + length ps) }
    // Two histories that pages keep under one head have the same events, threads and times, and the same pages for them
    // and for their archives.
    ensures one { (ps : Image) (h g : History) (head : Head) → (kept : Keeps H.dig ps h head)
        → (too : Keeps H.dig ps g head) → AreAlike h g kept.places too.places }
{}

/// What is read of pages that keep a history under the head is the history's, and no page is bad: a
/// step, under the head or under the link that leads to it, a path from a step down to another (or to
/// step 0), both under a top, the events of a step that was told, and those of a step; the records of all steps, and
/// what each of them recorded. After one more
/// step the pages are the earlier ones and more; where it is within the limits of a step and the archive is
/// that of the longer history, they keep it under the new head, while fewer than 2^47 pages are used.
pub fn reading_laws<H: Hasher>()
    // Where pages keep a history under the head, each of its steps is found in them, so no page met is bad, and what is
    // found of it is the history's.
    ensures step { (ps : Image) (h : History) (head : Head) (i : ℕ)
        → (kept : Keeps H.dig ps h head) → 1 ≤ i → i ≤ head.step →
        (info : StepInfo) × (found_step H.dig ps head i ≡ Is info) × IsInfoOf H.dig ps h kept.places i info }
    // Each of its steps is found by its own page alone under the link that leads to it.
    ensures here { (ps : Image) (h : History) (head link : Head) (i : ℕ)
        → (kept : Keeps H.dig ps h head) → 1 ≤ i → i ≤ head.step → link.step ≡ i
        → link.page ≡ (place_of_step kept.places i).page →
        (info : StepInfo) × (found_step H.dig ps link i ≡ Is info) × IsInfoOf H.dig ps h kept.places i info }
    // Where they keep one, the path from each step down to one not above it, which may be step 0, is found, and is the
    // history's, and so is the authenticator that its last link leads to.
    ensures link { (ps : Image) (h : History) (head : Head) (n i : ℕ) → Keeps H.dig ps h head → i ≤ n → n ≤ head.step →
        (link : StepLink) × (found_link H.dig ps head n i ≡ Is link) × IsPathOf H.dig h link.path.links n i
        × (link.auth ≡ auth H.dig h i) }
    // The path alone is found too, and is the history's.
    ensures path { (ps : Image) (h : History) (head : Head) (n i : ℕ) → Keeps H.dig ps h head → i ≤ n → n ≤ head.step →
        (path : Path) × (found_skip_path H.dig ps head n i ≡ Is path) × IsPathOf H.dig h path.links n i }
    // Where they keep one, the path from a top down to a step from 1 on and that step are found, and are the history's.
    ensures proof { (ps : Image) (h : History) (head : Head) (top i : ℕ)
        → (kept : Keeps H.dig ps h head) → 1 ≤ i → i ≤ top → top ≤ head.step →
        (proof : StepProof) × (found_proof H.dig ps head top i ≡ Is proof) × IsPathOf H.dig h proof.path.links top i
        × IsInfoOf H.dig ps h kept.places i proof.info }
    // Where what is told of a step is a history's and the pages keep its events as it tells, the events that are found
    // are the history's.
    ensures events_of { (dig : List ℕ → List ℕ) (ps : Image) (h : History) (places : List Place) (i : ℕ)
        (info : StepInfo) → IsInfoOf dig ps h places i info → events_of_info ps info ≡ Is (events_at h i) }
    // Where pages keep a history under the head, the events that are found of each of its steps are the history's.
    ensures events { (ps : Image) (h : History) (head : Head) (i : ℕ) → Keeps H.dig ps h head → 1 ≤ i → i ≤ head.step →
        found_events H.dig ps head i ≡ Is (events_at h i) }
    // Where pages keep a history under the head, the records that are found are those of its steps, the last one first.
    ensures records { (ps : Image) (h : History) (head : Head) → (kept : Keeps H.dig ps h head)
        → found_records ps head ≡ Is (records_down H.dig h kept.places (length h.steps)) }
    // What is found of the record of one of its steps is what the step recorded.
    ensures content { (ps : Image) (h : History) (head : Head) (i : ℕ) (s : Step)
        → (kept : Keeps H.dig ps h head) → 1 ≤ i → i ≤ head.step → step_at h i ≡ Some s
        → content_of ps (record_at H.dig h kept.places i) ≡ Is s.content }
    // Where they keep one that may have a further step, that step is found, whatever its content, its time and its
    // archive: its pages are the earlier ones with more behind them. And where content and time are within the limits of
    // a step, the archive's page is one of the pages, fewer than 2^47 pages are used, and the archive's label is that of
    // the tree after such a step, they keep under its head the history with that step, at the earlier places and one
    // with the archive's page.
    ensures appended { (ps : Image) (h : History) (head : Head) (content : Content) (archive : Root) (time : Option ℕ)
        → (kept : Keeps H.dig ps h head) → head.step < LAST_STEP → (more : Image) × (new : Head)
        × (appended H.dig ps head content archive time ≡ Is (record { pages = ps ++ more; value = new }))
        × (MayBeKept (bare_step content time) → archive.page < FIRST_PAGE + length ps → FIRST_PAGE + length ps < 2 ^ 47
        → (s : Step) → s.content ≡ content → s.time ≡ time
        → archive.label ≡ tree_label H.dig (tree (plus h s) (suc (length h.steps))) →
        (longer : Keeps H.dig (ps ++ more) (plus h s) new)
        × GoOn kept.places longer.places (length h.steps) archive.page) }
{}
