// The laws of what images stand for, of what is found in pages that keep a history, and of the machine.

ghost use Rattle.std.specs.Prelude.{◌≡◌, ◌≢◌, ℕ, ◌+◌, ◌^◌, ◌<◌, ◌≤◌, List, length, MatchOption, Option, None, Some, Ok, Err, false};
ghost use Rattle.tw_base.specs.declared.history.root.Root.{Root};
ghost use Rattle.tw_base.specs.declared.history.thread.Entry.{Entry};
ghost use Rattle.tw_base.specs.declared.history.thread.Key.{Key};
ghost use Rattle.tw_base.specs.declared.history.thread.Thread.{Thread};
ghost use Rattle.tw_base.specs.declared.history.tree_proof.Ask.{Ask};
ghost use Rattle.tw_base.specs.declared.kinds.limits.TheConstants.{LAST_STEP};
ghost use Rattle.tw_base.specs.history.Asking.{entry_with};
ghost use Rattle.tw_base.specs.history.Auth.{auth};
ghost use Rattle.tw_base.specs.history.History.{History, events_at};
ghost use Rattle.tw_base.specs.history.Limits.{IsStep, IsTimeWithinLimits, MayRecord};
ghost use Rattle.tw_base.specs.history.Sound.{IsSound};
ghost use Rattle.tw_base.specs.history.Tree.{entries, tree};
ghost use Rattle.tw_base.specs.kinds.Lists.{In};
ghost use Rattle.tw_disk.specs.Found.Found.{Is};
ghost use Rattle.tw_disk.specs.Image.{Image};
ghost use Rattle.tw_pages.specs.declared.open.StoreFault.{StoreFault};
ghost use Rattle.tw_msg.specs.declared.message.Message.{Message};
ghost use Rattle.tw_msg.specs.declared.receipt.Receipt.{Receipt};
ghost use Rattle.tw_msg.specs.HistoryMessages.{IsMessageOf, IsReceiptOf};
ghost use Rattle.tw_archive.specs.Archives.{MayArchive};
ghost use Rattle.tw_archive.specs.Judging.{judged_message, kept_auth, last_entry_step, last_of_peer};
ghost use Rattle.tw_archive.specs.declared.judgement.Judgement.TheVariants.{Known};
ghost use Rattle.tw_skiplist.specs.declared.head.Head.{Head};
ghost use Rattle.tw_skiplist.specs.Keeping.{Keeps, archive_at};
ghost use Rattle.tw_skipproof.specs.HistoryProofs.{IsPathOf, MakesExistence};
ghost use Rattle.tw_skipproof.specs.declared.path.Path.{Path};
ghost use Rattle.tw_base.specs.declared.history.refusal.Refusal.TheVariants.{NoEvent, NoThread};
ghost use Rattle.tw_answers.specs.declared.root.RootRecord.{RootRecord};
ghost use Rattle.tw_answers.specs.Finds.{event_proof, link_proof, path_down, thread_proof};
ghost use Rattle.tw_answers.specs.Limits.{append_refusal, archive_refusal, clock_refusal};
ghost use Rattle.tw_base.specs.declared.history.question.Question.{Question};
ghost use Rattle.tw_base.specs.history.Questions.{HasNames, MayAsk};
ghost use Rattle.tw_service.specs.Questions.{AreInOrder, found_bytes, pages_refusal};
ghost use Rattle.tw_service.specs.declared.receiving.Reception.TheVariants.{Archive, Known as ReceptionKnown};
ghost use Rattle.tw_service.specs.EventStep.{with_events_at};
ghost use Rattle.tw_service.specs.Finds.{found_archived, found_receipt, found_reception, found_thread};
ghost use Rattle.tw_service.specs.Machine.{IsStepOf, Makes, MakesLink, last_thread, receipt_by, received_as};
ghost use Rattle.tw_service.specs.Machine.Call.{Receive};
ghost use Rattle.tw_service.specs.Machine.Reply.{OfReceipt};
ghost use Rattle.tw_service.specs.Receiving.{reception};
ghost use Rattle.tw_service.specs.Stands.{IsNotOpenedFor, IsServed, KeepsWhole, StandsFor, greatest_time};
ghost use Rattle.tw_pages.specs.Records.Served.{Opened};
ghost use Rattle.tw_pages.specs.Records.{Served, written_record};
ghost use Rattle.tw_laws.specs.TreeSizes.{HasFewAbove};

use tw_archive::judgement_laws;
use tw_base::Hasher;

/// An image stands for at most one history, which is sound; and it is served as one thing at most, so that
/// one that stands for a history, or only opens as a store with the root record of a service, is never
/// refused.
pub fn standing_laws<H: Hasher>()
    // An image stands for at most one history.
    ensures once { (image : Image) (one other : List ℕ) (h g : History) → StandsFor H.dig image one h → StandsFor H.dig image other g → h ≡ g }
    // That history is sound and has the service's name.
    ensures sound { (image : Image) (name : List ℕ) (h : History) → StandsFor H.dig image name h → IsSound h × (h.name ≡ name) }
    // An image that stands for a history is refused for no reason.
    ensures never_refused { (image : Image) (name : List ℕ) (h : History) (fault : StoreFault) → StandsFor H.dig image name h → IsNotOpenedFor image fault → ⊥ }
    // An image is served as one thing at most: it opens as the service of one root record and one list of pages, or, for
    // one reason, as none.
    ensures served { (image : Image) (one other : Served RootRecord) → IsServed image one → IsServed image other → one ≡ other }
    // The pages of a service that an image opens as have numbers below 2^64.
    ensures numbers { (image : Image) (root : RootRecord) (pages : Image) → IsServed image (Opened (written_record root pages)) → 4 + length pages ≤ 2 ^ 64 }
{}

/// What is found in pages that keep a sound history of the name under the head is the history's, and
/// no page is bad: the thread of the next step, of events and a time that the table allows, where fewer
/// than 2^47 pages are used and the archive is the history's; the path down to an earlier step; what
/// becomes of a message, and its receipt; for steps in their order, the history's own proof of a step's
/// authenticator, of the event at the index, or that there is none, of a thread, and of its absence, and
/// the history's own map files; and its own file; and how few nodes a proof of its archives has.
pub fn finding_laws<H: Hasher>()
    // Where pages keep a history whole, fewer than 2^47 pages are used, the events and the time are within the limits of
    // a step and the table doesn't refuse them, what `append` finds with the history's archive is the last thread of the
    // history with one more step of these events; so no page met is bad.
    ensures thread { (ps : Image) (h : History) (r : RootRecord) (events : List (List ℕ)) (time : Option ℕ) → KeepsWhole H.dig ps h r → 4 + length ps < 2 ^ 47 → MayRecord events →
        IsTimeWithinLimits time → append_refusal false r.head.step r.time events time ≡ None → r.head.step < LAST_STEP →
        found_thread H.dig ps h.name r.head false r.time events time r.archive ≡ Is (Ok (last_thread H.dig (with_events_at h events time))) }
    // Where they keep a history, the path from its last step down to each earlier one is found, and is the history's.
    ensures path { (ps : Image) (h : History) (head : Head) (since : ℕ) → Keeps H.dig ps h head → since ≤ head.step →
        (path : Path) × (path_down H.dig ps head since ≡ Is (Ok path)) × IsPathOf H.dig h path.links (length h.steps) since }
    // Where they keep a sound history and the steps are in their order, what `prove_link` finds is the history's own
    // proof of the step's authenticator under that top.
    ensures link { (ps : Image) (h : History) (head : Head) (step top : ℕ) → Keeps H.dig ps h head → IsSound h → step ≤ top → 1 ≤ top → top ≤ head.step →
        (bytes : List ℕ) × (link_proof H.dig ps h.name head step top ≡ Is (Ok bytes)) × MakesLink H.dig h step top bytes }
    // Where they keep a sound history, the steps are in their order and the step has an event of that index, what
    // `prove_event` finds is the history's own proof of it under that top; so no page met is bad.
    ensures event { (ps : Image) (h : History) (head : Head) (step index top : ℕ) → Keeps H.dig ps h head → IsSound h → 1 ≤ step → step ≤ top → top ≤ head.step →
        index < length (events_at h step) → (bytes : List ℕ) × (event_proof H.dig ps h.name head step index top ≡ Is (Ok bytes)) × MakesExistence H.dig h step index top bytes }
    // Where they keep a history whole, what becomes of a message is found as by the history's archive and times; so no page met
    // is bad.
    ensures received { (ps : Image) (h : History) (r : RootRecord) (m : Message) (time : Option ℕ) → KeepsWhole H.dig ps h r →
        found_reception H.dig ps h.name r.head r.archive r.time m time ≡ Is (reception (length h.steps) (greatest_time h) time (judged_message H.dig (entries (tree h (length h.steps))) m)) }
    // Where the history's archive has the message's thread, the receipt that is found is that of the step that received it.
    ensures receipt { (ps : Image) (h : History) (r : RootRecord) (m : Message) (archived : ℕ) → KeepsWhole H.dig ps h r →
        judged_message H.dig (entries (tree h (length h.steps))) m ≡ Known archived → found_receipt H.dig ps h.name r.head archived m.thread ≡ Is (Ok (receipt_by H.dig h archived m.thread)) }
    // Where the history is sound and may archive a thread, a receipt of the next step is found, whatever pages stand behind the
    // others; so no page met is bad.
    ensures archived { (ps : Image) (h : History) (r : RootRecord) (t : Thread) (time : Option ℕ) (tree_pages : Image) (grown : Root) → KeepsWhole H.dig ps h r → IsSound h →
        MayArchive h t time → (receipt : Receipt) × (found_archived H.dig ps h.name r.head r.archive t time tree_pages grown ≡ Is (Ok receipt)) }
    // Where the history is sound, and the steps of a question, its peer's step and its peer's name are in their ranges, what is found
    // for it is the bytes that the history makes of it, or the refusal that the history tells; so no page met is bad.
    ensures asked { (ps : Image) (h : History) (r : RootRecord) (q : Question) → KeepsWhole H.dig ps h r → IsSound h → MayAsk q → HasNames q → AreInOrder r.head.step q →
        MatchOption (pages_refusal h q) ((bytes : List ℕ) × (found_bytes H.dig ps h.name r.head q ≡ Is (Ok bytes)) × Makes H.dig h q bytes)
        (λ refusal. found_bytes H.dig ps h.name r.head q ≡ Is (Err refusal)) }
    // Whatever the key, where the step's archive has no entry of it, what `prove_thread` finds is `NoThread`.
    ensures no_thread { (ps : Image) (h : History) (r : RootRecord) (step : ℕ) (key : Key) (top : ℕ) → KeepsWhole H.dig ps h r → IsSound h → 1 ≤ step → step ≤ top →
        top ≤ r.head.step → entry_with (entries (tree h step)) key ≡ None → thread_proof H.dig ps h.name r.head step key top ≡ Is (Err NoThread) }
    // Where they keep a history whole, the own proof that the archive's tree after a step has of an answer, as proofs and map files of the
    // history show it, has at most 9 nodes above its place for each level of the archive's pages, so at most 99; the levels are more than
    // none only where at least 2 * 13^(levels - 1) - 1 threads were received.
    ensures few { (ps : Image) (h : History) (r : RootRecord) (whole : KeepsWhole H.dig ps h r) (step : ℕ) (ask : Ask) → step ≤ length h.steps →
        HasFewAbove H.dig ps (archive_at H.dig h whole.steps.places step).page (tree h step) ask }
    // Where they keep one, the steps are in their order and the step has no event of that index, what `prove_event`
    // finds is `NoEvent` with the step's number of events.
    ensures no_event { (ps : Image) (h : History) (head : Head) (step index top : ℕ) → Keeps H.dig ps h head → IsSound h → 1 ≤ step → step ≤ top → top ≤ head.step →
        length (events_at h step) ≤ index → event_proof H.dig ps h.name head step index top ≡ Is (Err (NoEvent (length (events_at h step)))) }
{}

/// What a service answers to messages of peers: a receipt is one of its history, and the message of a peer
/// that goes on from its last step in the archive is accepted, or known where it has nothing new.
pub fn receiving_laws<H: Hasher>()
    // A receipt that the machine answers in a state is one of the next state: it is by a step of that history, which received the
    // receipt's thread.
    ensures receipts { (h next : History) (m : Message) (time : Option ℕ) (r : Receipt) → IsStepOf H.dig h (Receive m time) (OfReceipt r) next →
        IsReceiptOf H.dig next r.by.step r }
    // The message of another service's history, since its last step in a sound history's archive (step 0 where it has none), is to be
    // archived, where the authenticator that is kept of that step is its history's, which has more steps, and where the table
    // has no refusal of a further step at that time.
    ensures accepts { (h peer : History) (since : ℕ) (m : Message) (time : Option ℕ) → IsSound h → peer.name ≢ h.name → IsMessageOf H.dig peer since m →
        last_entry_step (last_of_peer (entries (tree h (length h.steps))) peer.name) ≡ since →
        kept_auth H.dig peer.name (last_of_peer (entries (tree h (length h.steps))) peer.name) ≡ auth H.dig peer since → since < length peer.steps →
        archive_refusal (length h.steps) (greatest_time h) time ≡ None → received_as H.dig h m time ≡ Archive }
    // A message of another service whose thread a sound history's archive has is known, at whatever time, whatever threads of its
    // service came later, and though there is no further step.
    ensures knows { (h : History) (m : Message) (time : Option ℕ) (e : Entry) → IsSound h → m.thread.from ≢ h.name → In e (entries (tree h (length h.steps))) → e.thread ≡ m.thread →
        received_as H.dig h m time ≡ ReceptionKnown e.archived }
{
    // By the laws of judgements.
    judgement_laws::<H>();
}

/// A sound history with one more step of events, within the limits of a step and of a history, and at no
/// time below its greatest one, is sound.
pub fn event_laws()
    // One more step of events, within the limits of a step and of a history, whose time, where it has one, isn't below the
    // greatest one so far, keeps a sound history sound.
    ensures { (h : History) (events : List (List ℕ)) (time : Option ℕ) → IsSound h → MayRecord events → IsTimeWithinLimits time →
        clock_refusal (greatest_time h) time ≡ None → length h.steps < LAST_STEP → IsSound (with_events_at h events time) }
{}
