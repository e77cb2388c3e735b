// The laws of lists of heads, of what images stand for, and of what comes to a follower.

ghost use Rattle.std.specs.Prelude.{◌≡◌, ◌≢◌, ℕ, ◌+◌, ◌^◌, ◌≤◌, List, ◌++◌, length, map, Ok, Err, Result};
ghost use Rattle.tw_base.specs.declared.history.thread.Thread.{Thread};
ghost use Rattle.tw_base.specs.format.Codecs.{IsUnambiguous};
ghost use Rattle.tw_base.specs.history.History.{History};
ghost use Rattle.tw_base.specs.history.HistoryTexts.{history_texts};
ghost use Rattle.tw_base.specs.history.Sound.{IsSound};
ghost use Rattle.tw_base.specs.kinds.Clash.{OrClash};
ghost use Rattle.tw_base.specs.kinds.Lists.{Each, In};
ghost use Rattle.tw_disk.specs.Image.{Image};
ghost use Rattle.tw_msg.specs.declared.message.Message.{Message};
ghost use Rattle.tw_msg.specs.HistoryMessages.{MakesMessage, thread_at_step};
ghost use Rattle.tw_pages.specs.declared.open.StoreFault.{StoreFault};
ghost use Rattle.tw_follow.specs.declared.judging.Offered.{Offered};
ghost use Rattle.tw_follow.specs.declared.limits.TheConstants.{ROOT_BYTES};
ghost use Rattle.tw_base.specs.declared.history.refusal.FollowRefusal.{FollowRefusal};
ghost use Rattle.tw_base.specs.declared.history.refusal.FollowRefusal.TheVariants.{NoMemory};
ghost use Rattle.tw_follow.specs.declared.root.RootRecord.{RootRecord};
ghost use Rattle.tw_follow.specs.HeadLists.{AreHeadsRising, HasHead, Kept, first_thread, last_head, no_heads};
ghost use Rattle.tw_follow.specs.HeadPages.{head_codec};
ghost use Rattle.tw_follow.specs.Offers.{JudgesOffer, answer_to};
ghost use Rattle.tw_follow.specs.Roots.{root_codec};
ghost use Rattle.tw_follow.specs.Runs.{Move, RunsByMoves, moved_texts};
ghost use Rattle.tw_follow.specs.Runs.Move.{Answered};
ghost use Rattle.tw_follow.specs.Stands.{IsNotOpenedFor, IsServed, StandsFor};
ghost use Rattle.tw_pages.specs.Records.Served.{Opened};
ghost use Rattle.tw_pages.specs.Records.{Served, written_record};

use tw_base::Hasher;

/// A root record has one spelling, and so has a head page.
pub fn root_laws()
    // A root record is spelled in one way, and its bytes spell one record; so is a head page.
    ensures records { IsUnambiguous root_codec × IsUnambiguous head_codec }
    // A root record has 64 bytes.
    ensures size { (r : RootRecord) → root_codec.Fits r → length (root_codec.write r) ≡ ROOT_BYTES }
{}

/// An image stands for at most one list of heads, whose steps rise; and it is served as one thing at most, so that
/// one that stands for a list, or only opens as a store with the root record of a follower, is never refused.
pub fn image_laws<H: Hasher>()
    // An image stands for at most one list.
    ensures once { (image : Image) (k other : Kept) → StandsFor H.dig image k → StandsFor H.dig image other → k ≡ other }
    // The heads of that list are threads of its name, and their steps rise.
    ensures rising { (image : Image) (k : Kept) → StandsFor H.dig image k → AreHeadsRising k }
    // An image that stands for a list is refused for no reason.
    ensures never_refused { (image : Image) (k : Kept) (fault : StoreFault) → StandsFor H.dig image k → IsNotOpenedFor H.dig image fault → ⊥ }
    // An image is served as one thing at most: it opens as the follower of one root record and one list of pages, or, for
    // one reason, as none.
    ensures served { (image : Image) (one other : Served RootRecord) → IsServed H.dig image one → IsServed H.dig image other → one ≡ other }
    // The pages of a follower that an image opens as have numbers below 2^64.
    ensures numbers { (image : Image) (root : RootRecord) (pages : Image) → IsServed H.dig image (Opened (written_record root pages)) → 4 + length pages ≤ 2 ^ 64 }
{}

/// Offered bytes are judged in one way over a head, want of memory excepted; and the message that a sound history has
/// of its last step since a head's step, where the history has the head, isn't refused.
pub fn offer_laws<H: Hasher>()
    // What becomes of offered bytes over a head is one thing, want of memory excepted.
    ensures once { (head : Thread) (bytes : List ℕ) (one other : Result Offered FollowRefusal) → JudgesOffer H.dig head bytes one → JudgesOffer H.dig head bytes other
        → one ≢ Err NoMemory → other ≢ Err NoMemory → one ≡ other }
    // The message of a sound history that has the head, since the head's step, is the head or moves it to the history's
    // last thread.
    ensures own { (h : History) (head : Thread) (bytes : List ℕ) → IsSound h → h.name ≡ head.from → HasHead H.dig h head → MakesMessage H.dig h head.step bytes
        → (offered : Offered) × JudgesOffer H.dig head bytes (Ok offered) × (answer_to head offered ≡ thread_at_step H.dig h (length h.steps)) }
{}

/// What runs come to: whatever comes to a follower on one disk, offers, refusals, disk faults, crashes at any moment and
/// reopenings. Its list only grows, at its end; steps rise; a head that was answered stays. Where a sound history has the
/// last head, it has all heads, or two texts of the history and of the links that moved the follower clash.
pub fn run_laws<H: Hasher>()
    // The heads so far stay, and behind them come the threads of the messages that moved it.
    ensures grows { (k last : Kept) (moves : List Move) (moved : List Message) → RunsByMoves H.dig k moves moved last
        → (last.name ≡ k.name) × (last.heads ≡ k.heads ++ map (λ m. m.thread) moved) }
    // The steps of the heads rise.
    ensures rises { (k last : Kept) (moves : List Move) (moved : List Message) → AreHeadsRising k → RunsByMoves H.dig k moves moved last → AreHeadsRising last }
    // A head that an offer answered is one of the list, from then on.
    ensures answered { (k last : Kept) (moves : List Move) (moved : List Message) (bytes : List ℕ) (thread : Thread) → RunsByMoves H.dig k moves moved last
        → In (Answered bytes (Ok thread)) moves → In thread last.heads }
    // A sound history that has the last head has all heads of the list, or two texts of the history and of the climbs of
    // the messages that moved it clash.
    ensures binds { (name : List ℕ) (last : Kept) (moves : List Move) (moved : List Message) (h : History) → RunsByMoves H.dig (no_heads name) moves moved last
        → IsSound h → HasHead H.dig h (last_head H.dig last)
        → OrClash H.dig (history_texts H.dig h ++ moved_texts H.dig (first_thread H.dig name) moved) (Each (HasHead H.dig h) last.heads) }
{}
