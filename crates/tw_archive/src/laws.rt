// What holds of judgements by an archive, and of pages that keep its trees, whatever the calls do.

ghost use Rattle.std.specs.Prelude.{◌≡◌, ◌≢◌, ◌⊎◌, ◌+◌, ◌++◌, ℕ, suc, List, [], length, ◌<◌, ◌≤◌, Option, Some, None};
ghost use Rattle.tw_base.specs.declared.history.root.Root.{Root};
ghost use Rattle.tw_base.specs.declared.history.thread.Entry.{Entry};
ghost use Rattle.tw_base.specs.declared.history.thread.Thread.{Thread};
ghost use Rattle.tw_base.specs.history.Auth.{auth, tree_label};
ghost use Rattle.tw_base.specs.history.History.{History, Step, fresh_of, plus, received, root_of, step_at, thread_of};
ghost use Rattle.tw_base.specs.history.Limits.{IsEntryInRange};
ghost use Rattle.tw_base.specs.history.Sound.{IsSound};
ghost use Rattle.tw_base.specs.history.Tree.{IsRising, Tree, entries, forest, tree};
ghost use Rattle.tw_base.specs.kinds.Lists.{Each, In};
ghost use Rattle.tw_disk.specs.declared.limits.TheConstants.{FIRST_PAGE};
ghost use Rattle.tw_disk.specs.Found.Found.{Is};
ghost use Rattle.tw_disk.specs.Image.{Image};
ghost use Rattle.tw_msg.specs.declared.message.Message.{Message};
ghost use Rattle.tw_msg.specs.HistoryMessages.{IsMessageOf};
ghost use Rattle.tw_msg.specs.Messages.{IsLinked, Leads};
ghost use Rattle.tw_rbtree.specs.declared.new_node.NewNode.{NewNode};
ghost use Rattle.tw_rbtree.specs.Listing.{listed};
ghost use Rattle.tw_rbtree.specs.Standing.{HasNamed, StandsForTree, StandsWith};
ghost use Rattle.tw_archive.specs.Archives.{Agree, HasGrown, KeepsTree, KeepsTrees, MayArchive, archiving, named_at};
ghost use Rattle.tw_archive.specs.declared.judgement.Judgement.TheVariants.{Accept, Forked, Known};
ghost use Rattle.tw_base.specs.history.Entries.{thread_key};
ghost use Rattle.tw_archive.specs.Judging.{found_judgement, found_last, judged_message, kept_auth, last_entry_step, last_of_peer};
ghost use Rattle.tw_archive.specs.Numbering.{number_of_page, numbered_archive, new_from};

use tw_base::{Hasher, asking_laws};
use tw_msg::history_message_laws;
use tw_rbtree::standing_laws;

/// What is found of a message in pages that stand for an archive's tree, and what the judgement says of the archive; its clauses
/// are the theorem. The function itself does nothing.
pub fn judgement_laws<H: Hasher>()
    // The peer's last entry that is found is that of the tree's list.
    ensures found_last { (ps : Image) (root : Root) (t : Tree) (peer : List ℕ) → StandsForTree H.dig ps root t →
        found_last H.dig ps root peer ≡ Is (last_of_peer (entries t) peer) }
    // The judgement that is found is that by the tree's entries, though the message's key is looked for only where its step isn't
    // above the last one.
    ensures found { (ps : Image) (root : Root) (t : Tree) (m : Message) → StandsForTree H.dig ps root t →
        found_judgement H.dig ps root m ≡ Is (judged_message H.dig (entries t) m) }
    // Of entries whose keys rise and whose steps are within their limits, the peer's last one is of the peer, and each other one of it
    // has a lower step.
    ensures last { (es : List Entry) (peer : List ℕ) (e : Entry) → IsRising es → Each IsEntryInRange es → last_of_peer es peer ≡ Some e →
        In e es × (e.thread.from ≡ peer) × ((f : Entry) → In f es → f.thread.from ≡ peer → (f ≡ e) ⊎ (f.thread.step < e.thread.step)) }
    // Where there is none, no entry is of the peer.
    ensures no_last { (es : List Entry) (peer : List ℕ) → IsRising es → Each IsEntryInRange es → last_of_peer es peer ≡ None →
        (f : Entry) → In f es → f.thread.from ≡ peer → ⊥ }
    // A message whose thread an entry has is known, with the step that received it, whatever threads of its service came later.
    ensures knows { (es : List Entry) (m : Message) (e : Entry) → IsRising es → In e es → e.thread ≡ m.thread → judged_message H.dig es m ≡ Known e.archived }
    // One of whose service and step an entry has another authenticator is a fork of it.
    ensures forks { (es : List Entry) (m : Message) (e : Entry) → IsRising es → In e es → thread_key e.thread ≡ thread_key m.thread → e.thread.auth ≢ m.thread.auth →
        judged_message H.dig es m ≡ Forked m.thread.step e.thread.auth m.thread.auth }
    // A message is known only where an entry has its thread, received at the step that is told.
    ensures known { (es : List Entry) (m : Message) (archived : ℕ) → judged_message H.dig es m ≡ Known archived →
        (e : Entry) × In e es × (e.thread ≡ m.thread) × (e.archived ≡ archived) }
    // A fork is told only where an entry has another authenticator of the message's service and step.
    ensures forked { (es : List Entry) (m : Message) (step : ℕ) (kept offered : List ℕ) → judged_message H.dig es m ≡ Forked step kept offered →
        (step ≡ m.thread.step) × (offered ≡ m.thread.auth) × (kept ≢ offered)
        × ((e : Entry) × In e es × (e.thread.from ≡ m.thread.from) × (e.thread.step ≡ step) × (e.thread.auth ≡ kept)) }
    // A message that is accepted is of a step above each one of its service among the entries, and its link climbs from the last of
    // them, or from step 0 where there is none.
    ensures accepted { (es : List Entry) (m : Message) → IsRising es → Each IsEntryInRange es → IsLinked m → judged_message H.dig es m ≡ Accept →
        ((e : Entry) → In e es → e.thread.from ≡ m.thread.from → e.thread.step < m.thread.step)
        × (m.since ≡ last_entry_step (last_of_peer es m.thread.from)) × Leads H.dig (kept_auth H.dig m.thread.from (last_of_peer es m.thread.from)) m }
    // The message of a peer's history, since its last step among the entries (step 0 where it has none), is accepted, where the
    // authenticator that is kept of that step is the history's, and the history has more steps.
    ensures accepts { (es : List Entry) (h : History) (since : ℕ) (m : Message) → IsRising es → Each IsEntryInRange es → IsMessageOf H.dig h since m →
        last_entry_step (last_of_peer es h.name) ≡ since → kept_auth H.dig h.name (last_of_peer es h.name) ≡ auth H.dig h since → since < length h.steps →
        judged_message H.dig es m ≡ Accept }
{
    // What is found of keys, and that an entry of a name has a last one, are the laws of the tree.
    standing_laws::<H>();
    asking_laws();
    // That a history's message climbs is a law of messages.
    history_message_laws::<H>();
}

/// Pages that keep the archive's tree of each step of a history, and the numbers of its nodes; its clauses are the theorem. The
/// function itself does nothing.
///
/// `step_page` gives the page of each step, `archive` the archive's root after each step. `named_at` says of which tree each page up
/// to that of a step is to be the root, by the number that the page has after the step.
pub fn kept_tree_laws<H: Hasher>()
    // After each step as many nodes are numbered as the history has.
    ensures count { (ps : Image) (h : History) (step_page : ℕ → ℕ) (archive : ℕ → Root) → KeepsTrees H.dig ps h step_page archive → (k : ℕ) → k ≤ length h.steps →
        length (forest h k) ≡ (numbered_archive H.dig ps step_page archive k).count + 1 }
    // A page's number is that of a node so far, or 0.
    ensures low { (ps : Image) (step_page : ℕ → ℕ) (archive : ℕ → Root) (k page : ℕ) →
        number_of_page (numbered_archive H.dig ps step_page archive k).pages page ≤ (numbered_archive H.dig ps step_page archive k).count }
    // The pages stand for the tree after each step, and each page of it up to the step's own is the tree of its number; before the first
    // step too, where the root has the label of the empty tree.
    ensures trees { (ps : Image) (h : History) (step_page : ℕ → ℕ) (archive : ℕ → Root) → KeepsTrees H.dig ps h step_page archive → (k : ℕ) → k ≤ length h.steps →
        (k ≡ 0 → (archive 0).label ≡ tree_label H.dig (tree h 0)) → StandsWith H.dig (HasNamed (named_at H.dig ps h step_page archive k)) ps (archive k) (tree h k) }
    // In a sound history the archive's root has a page exactly where a thread was received so far, and it is one of the pages.
    ensures root_page { (ps : Image) (h : History) (step_page : ℕ → ℕ) (archive : ℕ → Root) → KeepsTrees H.dig ps h step_page archive → IsSound h → (k : ℕ) → k ≤ length h.steps →
        (length (received h k) ≡ 0 → (archive k).page ≡ 0) × (0 < length (received h k) → (FIRST_PAGE ≤ (archive k).page) × ((archive k).page < FIRST_PAGE + length ps)) }
    // Two histories of as many steps have the same new nodes and the same roots where the same pages keep their trees, each step
    // and each root having the same page in both.
    ensures one { (ps : Image) (h g : History) (one_page other_page : ℕ → ℕ) (one other : ℕ → Root) → KeepsTrees H.dig ps h one_page one → KeepsTrees H.dig ps g other_page other →
        length h.steps ≡ length g.steps → Agree (length h.steps) one_page other_page → Agree (length h.steps) (λ k. (one k).page) (λ k. (other k).page) → (k : ℕ) → k ≤ length h.steps →
        (fresh_of (step_at h k) ≡ fresh_of (step_at g k)) × (root_of (step_at h k) ≡ root_of (step_at g k)) }
    // With more pages behind them and one more step, pages that keep the tree of that step keep those of all steps.
    ensures next { (ps more : Image) (h : History) (s : Step) (step_page next_page : ℕ → ℕ) (archive next_archive : ℕ → Root) → KeepsTrees H.dig ps h step_page archive →
        Agree (length h.steps) step_page next_page → Agree (length h.steps) archive next_archive →
        KeepsTree H.dig (ps ++ more) (plus h s) next_page next_archive (length h.steps) → KeepsTrees H.dig (ps ++ more) (plus h s) next_page next_archive }
    // A step of events, which has no new node and the root as before, keeps the root and the tree of the step before, whose page lies
    // before that step's.
    ensures events { (ps more : Image) (h : History) (s : Step) (step_page next_page : ℕ → ℕ) (archive next_archive : ℕ → Root) → KeepsTrees H.dig ps h step_page archive →
        Agree (length h.steps) step_page next_page → Agree (length h.steps) archive next_archive →
        thread_of (Some s) ≡ None → s.fresh ≡ [] → s.root ≡ root_of (step_at h (length h.steps)) → next_archive (suc (length h.steps)) ≡ archive (length h.steps) →
        ((archive (length h.steps)).page ≡ 0) ⊎ ((archive (length h.steps)).page < new_from step_page (length h.steps)) →
        (archive (length h.steps)).label ≡ tree_label H.dig (tree h (length h.steps)) → KeepsTrees H.dig (ps ++ more) (plus h s) next_page next_archive }
    // What is numbered of the earlier steps stays.
    ensures numbers { (ps more : Image) (h : History) (step_page next_page : ℕ → ℕ) (archive next_archive : ℕ → Root) → KeepsTrees H.dig ps h step_page archive →
        Agree (length h.steps) step_page next_page → Agree (length h.steps) archive next_archive → (k : ℕ) → k ≤ length h.steps →
        numbered_archive H.dig (ps ++ more) next_page next_archive k ≡ numbered_archive H.dig ps step_page archive k }
    // Where behind them stand pages of a tree that lists one thread more, as an insert leaves them, nodes are listed of it, and the
    // step that archives the thread with these nodes has this tree.
    ensures grown { (ps more : Image) (h : History) (step_page : ℕ → ℕ) (archive : ℕ → Root) (root : Root) (grown : Tree) (t : Thread) (time : Option ℕ) →
        KeepsTrees H.dig ps h step_page archive → HasGrown H.dig ps more h step_page archive root grown t →
        (nodes : List NewNode) × (listed H.dig (ps ++ more) (new_from step_page (length h.steps)) root ≡ Is nodes)
        × (tree (plus h (archiving (numbered_archive H.dig ps step_page archive (length h.steps)) t time nodes root.page)) (suc (length h.steps)) ≡ grown) }
    // With that step the pages keep the tree of each step, and the history stays sound where it may archive the thread.
    ensures archived { (ps more : Image) (h : History) (step_page next_page : ℕ → ℕ) (archive next_archive : ℕ → Root) (root : Root) (grown : Tree) (t : Thread) (time : Option ℕ) (nodes : List NewNode) →
        KeepsTrees H.dig ps h step_page archive → HasGrown H.dig ps more h step_page archive root grown t → listed H.dig (ps ++ more) (new_from step_page (length h.steps)) root ≡ Is nodes →
        Agree (length h.steps) step_page next_page → Agree (length h.steps) archive next_archive → next_archive (suc (length h.steps)) ≡ root →
        KeepsTrees H.dig (ps ++ more) (plus h (archiving (numbered_archive H.dig ps step_page archive (length h.steps)) t time nodes root.page)) next_page next_archive
        × (IsSound h → MayArchive h t time → IsSound (plus h (archiving (numbered_archive H.dig ps step_page archive (length h.steps)) t time nodes root.page))) }
{}
