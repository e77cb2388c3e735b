// Looking at the segment at hand, which the stage names; by this `Judging` of `verifier.rt` is a reader of segments (tw_pieces).

ghost use Rattle.std.specs.Prelude.{ℕ, List, Ok};
ghost use Rattle.tw_pieces.specs.Resuming.{Attempts, EndsAsFormat};
ghost use Rattle.tw_base.specs.declared.history.thread.Thread.{Thread as Anchor};
ghost use Rattle.tw_verifier.specs.declared.stage.Stage.{Stage as AnyStage};
ghost use Rattle.tw_verifier.specs.Stages.{rest};
ghost use Rattle.tw_verifier.specs.Verifying.{judging_rest};

use crate::attempts::{
    attempt_begun, attempt_counted, attempt_event, attempt_head, attempt_link, attempt_link_head,
    attempt_opening,
};
use crate::judgement::Judgement;
use crate::stage::Stage;
use crate::tree_attempts::{
    attempt_bind, attempt_end, attempt_entry, attempt_key, attempt_node, attempt_tail, attempt_tree,
};
use crate::verifier::Judging;
use std::alloc::Global;
use std::marker::PhantomData;
use tw_base::{Hasher, NoMemory, Thread, Threads};
use tw_pieces::{Attempt, Segments};

/// Looks at the bytes that are held of the segment at hand.
#[tactic(auto)]
fn attempt_stage<H: Hasher>(
    alloc: Global,
    anchors: &[Thread],
    stage: Stage,
    held: &[u8],
) -> Result<Attempt<Stage>, NoMemory>
    ensures { Attempts (rest H.dig anchors.now) stage held.now result }
{
    match stage {
        Stage::Begun => attempt_begun(held),
        Stage::Counted => attempt_counted(held),
        Stage::Head(goal) => attempt_head::<H>(alloc, anchors, goal, held),
        Stage::LinkHead => attempt_link_head::<H>(alloc, anchors, held),
        Stage::Path(path) => attempt_link::<H>(alloc, anchors, path, held),
        Stage::Opening(opens) => attempt_opening::<H>(alloc, anchors, opens, held),
        Stage::Event(event_at) => attempt_event::<H>(alloc, anchors, event_at, held),
        Stage::Entry(shower) => attempt_entry(shower, held),
        Stage::Key(reached) => attempt_key(reached, held),
        Stage::Tree(asked) => attempt_tree::<H>(alloc, anchors, asked, held),
        Stage::Nodes(climb) => attempt_node::<H>(alloc, anchors, climb, held),
        Stage::Bind { hop, shown } => attempt_bind::<H>(alloc, anchors, hop, shown, held),
        Stage::Tail(onward) => attempt_tail::<H>(alloc, anchors, onward, held),
        Stage::Done(judgement) => Ok(attempt_end(judgement, held)),
    }
}

/// The judgement of a whole proof. (Other stages are dropped by a name, so that the prover meets the drop in one place.)
#[tactic(auto)]
fn ended(stage: Stage) -> Option<Judgement>
    ensures { (dig : List ℕ → List ℕ) (anchors : List Anchor) → EndsAsFormat (rest dig anchors stage) result }
{
    match stage {
        Stage::Done(judgement) => Some(judgement),
        unfinished => {
            drop(unfinished);
            None
        }
    }
}

/// The same under these anchors.
#[tactic(auto)]
fn under<H: Hasher>(
    anchors: Threads,
    hasher: PhantomData<H>,
    found: Attempt<Stage>,
) -> Attempt<Judging<H>>
    ensures { (stage : AnyStage) (held : List ℕ) → Attempts (rest H.dig anchors) stage held (Ok found) →
        Attempts (judging_rest H.dig) (record { anchors = anchors; stage = stage; hasher = hasher }) held (Ok result) }
{
    match found {
        Attempt::Ended { next, size } => Attempt::Ended {
            next: Judging {
                anchors,
                stage: next,
                hasher,
            },
            size,
        },
        Attempt::Front { same, until } => Attempt::Front {
            same: Judging {
                anchors,
                stage: same,
                hasher,
            },
            until,
        },
        Attempt::Broken { place } => Attempt::Broken { place },
    }
}

impl<H: Hasher> Segments for Judging<H> {
    type Whole = Judgement;

    ghost rest = { judging_rest H.dig };

    fn attempt(self, alloc: Global, held: &[u8]) -> Result<Attempt<Self>, NoMemory> {
        let Judging {
            anchors,
            stage,
            hasher,
        } = self;
        let found = attempt_stage::<H>(alloc, anchors.as_slice(), stage, held)?;
        Ok(under(anchors, hasher, found))
    }

    fn whole(self) -> Option<Judgement> {
        let Judging { stage, .. } = self;
        ended(stage)
    }
}
