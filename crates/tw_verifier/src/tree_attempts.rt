// What is found in the bytes that are held of each segment behind an opening that shows an archive, of a tail, and behind the whole.
// But for the last these stay calls: inlined, they would have each segment of any proof move what they alone hold.
#![tactic(auto)]

ghost use Rattle.std.specs.Prelude.{◌≡◌, ℕ, ◌-◌, ◌<◌, ◌≤◌, List, [], ◌∷◌, length, IfOk, Ok};
ghost use Rattle.tw_base.specs.declared.kinds.limits.TheConstants.{LAST_STEP};
ghost use Rattle.tw_base.specs.declared.history.thread.Thread.{Thread as Anchor};
ghost use Rattle.tw_base.specs.declared.history.tree_proof.TreeProof.TheVariants.{Present};
ghost use Rattle.tw_treeproof.specs.declared.limits.TheConstants.{MOST_ABOVE_ENTRY};
ghost use Rattle.tw_base.specs.format.Formats.{then_by};
ghost use Rattle.tw_pieces.specs.Resuming.{Attempts};
ghost use Rattle.tw_skipproof.specs.declared.path.Link.{Link as AnyLink};
ghost use Rattle.tw_treeproof.specs.Codecs.{gap_codec, present_codec};
ghost use Rattle.tw_verifier.specs.declared.stage.Stage.TheVariants.{Bind, Done, Entry as OfEntry, Key, Nodes, Tail, Tree};
ghost use Rattle.tw_verifier.specs.Stages.{behind_entry, behind_first, behind_links_of, behind_path, behind_tree, event_stage, nodes_of, part_stage, rest, with_tree_nodes};

use crate::following::{along_path, along_tree};
use crate::heads::take_present_head;
use crate::judgement::Judgement;
use crate::stage::{
    Asked, Climb, Goal, HopBind, HopEntry, Onward, Reached, Role, Shower, Stage, Under, Way,
};
use std::alloc::Global;
use tw_base::limits::LAST_STEP;
use tw_base::{
    Ancestor, AncestorList, Digest, Entry, Hasher, NoMemory, Thread, TreeProof, take_entry,
    take_number,
};
use tw_chain::take_key;
use tw_pieces::{Attempt, missed};
use tw_skipproof::LinkList;
use tw_treeproof::{MOST_ABOVE_PLACE, take_ancestor};

/// What the tree proof behind an entry is of.
fn asked_by(shower: Shower, entry: Entry) -> Asked
    requires { entry.thread.step ≤ LAST_STEP }
    ensures { (dig : List ℕ → List ℕ) (anchors : List Anchor) → rest dig anchors (Tree result) ≡ behind_entry dig anchors shower entry }
{
    match shower {
        Shower::At(at) => Asked::Archived { at, entry },
        Shower::Behind(further) => Asked::Hop(HopEntry { further, entry }),
    }
}

/// Looks for an entry.
#[inline(never)]
pub(crate) fn attempt_entry(shower: Shower, held: &[u8]) -> Result<Attempt<Stage>, NoMemory>
    ensures { (dig : List ℕ → List ℕ) (anchors : List Anchor) → Attempts (rest dig anchors) (OfEntry shower) held.now result }
{
    let mut at = 0;
    match take_entry(held, &mut at) {
        Ok(entry) => Ok(Attempt::Ended {
            next: Stage::Tree(asked_by(shower, entry)),
            size: at as usize,
        }),
        Err(fault) => missed(Stage::Entry(shower), held, fault),
    }
}

/// Looks for a key.
#[inline(never)]
pub(crate) fn attempt_key(reached: Reached, held: &[u8]) -> Result<Attempt<Stage>, NoMemory>
    ensures { (dig : List ℕ → List ℕ) (anchors : List Anchor) → Attempts (rest dig anchors) (Key reached) held.now result }
{
    let mut at = 0;
    match take_key(held, &mut at) {
        Ok(key) => Ok(Attempt::Ended {
            next: Stage::Tree(Asked::Absent { at: reached, key }),
            size: at as usize,
        }),
        Err(fault) => missed(Stage::Key(reached), held, fault),
    }
}

/// Behind the number of the nodes above an entry's node, and the labels of its sides.
fn behind_labels<H: Hasher>(
    alloc: Global,
    anchors: &[Thread],
    asked: Asked,
    head: (u64, (Digest, Digest)),
) -> Stage
    requires { head.0 ≤ MOST_ABOVE_ENTRY }
    ensures { rest H.dig anchors.now result ≡ nodes_of H.dig anchors.now (behind_tree H.dig anchors.now asked) (Present head.1.0 head.1.1 []) head.0 }
{
    let (more, (left, right)) = head;
    let shown = TreeProof::Present {
        left,
        right,
        ancestors: AncestorList::new(alloc),
    };
    along_tree::<H>(alloc, anchors, asked, shown, more as u8)
}

/// Looks for the number of the nodes of a tree proof of an entry, and the labels of the sides of its node.
fn attempt_present<H: Hasher>(
    alloc: Global,
    anchors: &[Thread],
    asked: Asked,
    held: &[u8],
) -> Result<Attempt<Stage>, NoMemory>
    requires { rest H.dig anchors.now (Tree asked) ≡ then_by present_codec.format (behind_tree H.dig anchors.now asked) }
    ensures { Attempts (rest H.dig anchors.now) (Tree asked) held.now result }
{
    let mut at = 0;
    match take_present_head(held, &mut at) {
        Ok(head) => Ok(Attempt::Ended {
            next: behind_labels::<H>(alloc, anchors, asked, head),
            size: at as usize,
        }),
        Err(fault) => missed(Stage::Tree(asked), held, fault),
    }
}

/// Looks for the number of the nodes of a tree proof of an empty place.
fn attempt_gap<H: Hasher>(
    alloc: Global,
    anchors: &[Thread],
    asked: Asked,
    held: &[u8],
) -> Result<Attempt<Stage>, NoMemory>
    requires { rest H.dig anchors.now (Tree asked) ≡ then_by gap_codec.format (behind_tree H.dig anchors.now asked) }
    ensures { Attempts (rest H.dig anchors.now) (Tree asked) held.now result }
{
    let mut at = 0;
    match take_number(held, &mut at, 1, 0, MOST_ABOVE_PLACE) {
        Ok(more) => {
            let shown = TreeProof::Gap {
                ancestors: AncestorList::new(alloc),
            };
            Ok(Attempt::Ended {
                next: along_tree::<H>(alloc, anchors, asked, shown, more as u8),
                size: at as usize,
            })
        }
        Err(fault) => missed(Stage::Tree(asked), held, fault),
    }
}

/// Looks for how a tree proof begins.
#[inline(never)]
pub(crate) fn attempt_tree<H: Hasher>(
    alloc: Global,
    anchors: &[Thread],
    asked: Asked,
    held: &[u8],
) -> Result<Attempt<Stage>, NoMemory>
    ensures { Attempts (rest H.dig anchors.now) (Tree asked) held.now result }
{
    match asked {
        Asked::Archived { at, entry } => {
            attempt_present::<H>(alloc, anchors, Asked::Archived { at, entry }, held)
        }
        Asked::Absent { at, key } => {
            attempt_gap::<H>(alloc, anchors, Asked::Absent { at, key }, held)
        }
        Asked::Hop(hop) => attempt_present::<H>(alloc, anchors, Asked::Hop(hop), held),
    }
}

/// The tree proof with a node more above.
fn with_node(shown: TreeProof, node: Ancestor) -> Result<TreeProof, NoMemory>
    ensures { IfOk result (λ tree. tree ≡ with_tree_nodes shown (node ∷ [])) }
{
    match shown {
        TreeProof::Present {
            left,
            right,
            mut ancestors,
        } => {
            ancestors.push(node)?;
            Ok(TreeProof::Present {
                left,
                right,
                ancestors,
            })
        }
        TreeProof::Gap { mut ancestors } => {
            ancestors.push(node)?;
            Ok(TreeProof::Gap { ancestors })
        }
    }
}

/// Behind a node more of a tree proof.
fn behind_node<H: Hasher>(
    alloc: Global,
    anchors: &[Thread],
    climb: Climb,
    node: Ancestor,
) -> Result<Stage, NoMemory>
    ensures { IfOk result (λ stage. rest H.dig anchors.now stage ≡ nodes_of H.dig anchors.now (behind_tree H.dig anchors.now climb.asked) (with_tree_nodes climb.shown (node ∷ [])) (climb.more - 1)) }
{
    let Climb { asked, shown, more } = climb;
    let shown = with_node(shown, node)?;
    Ok(along_tree::<H>(alloc, anchors, asked, shown, more - 1))
}

/// Looks for a node of a tree proof.
#[inline(never)]
pub(crate) fn attempt_node<H: Hasher>(
    alloc: Global,
    anchors: &[Thread],
    climb: Climb,
    held: &[u8],
) -> Result<Attempt<Stage>, NoMemory>
    ensures { Attempts (rest H.dig anchors.now) (Nodes climb) held.now result }
{
    let mut at = 0;
    match take_ancestor(held, &mut at) {
        Ok(node) => {
            let next = behind_node::<H>(alloc, anchors, climb, node)?;
            Ok(Attempt::Ended {
                next,
                size: at as usize,
            })
        }
        Err(fault) => missed(Stage::Nodes(climb), held, fault),
    }
}

/// Looks for the bind of a hop.
#[inline(never)]
pub(crate) fn attempt_bind<H: Hasher>(
    alloc: Global,
    anchors: &[Thread],
    hop: HopEntry,
    shown: TreeProof,
    held: &[u8],
) -> Result<Attempt<Stage>, NoMemory>
    ensures { Attempts (rest H.dig anchors.now) (Bind hop shown) held.now result }
{
    let mut at = 0;
    match take_number(held, &mut at, 8, 0, LAST_STEP) {
        Ok(bind) => {
            let step = hop.entry.thread.step;
            let way = Way::Bind(HopBind { hop, shown, bind });
            let next = along_path::<H>(alloc, anchors, way, LinkList::new(alloc), bind, step)?;
            Ok(Attempt::Ended {
                next,
                size: at as usize,
            })
        }
        Err(fault) => missed(Stage::Bind { hop, shown }, held, fault),
    }
}

/// The thread to which a chain has come.
fn known_of(onward: &Onward) -> Thread
    ensures { result ≡ onward.now.chain.value.known }
{
    onward.chain.known
}

/// The way from the thread of a chain down to the step of the first event.
fn way_down(onward: Onward, step: u64) -> Way
    requires some { 0 < step }
    requires within { step ≤ LAST_STEP }
    ensures { (dig : List ℕ → List ℕ) (anchors : List Anchor) (links : List AnyLink) → behind_path dig anchors result links
        ≡ behind_links_of dig anchors onward.chain.value step links }
{
    let known = known_of(&onward);
    let under = Under {
        service: known.from,
        step,
        top: known.step,
    };
    let role = Role::First(onward);
    Way::Part {
        goal: Goal::Event(role),
        under,
    }
}

/// Behind the step of the first event.
fn behind_step<H: Hasher>(
    alloc: Global,
    anchors: &[Thread],
    onward: Onward,
    step: u64,
) -> Result<Stage, NoMemory>
    requires some { 0 < step }
    requires within { step ≤ LAST_STEP }
    ensures { IfOk result (λ stage. rest H.dig anchors.now stage
        ≡ part_stage 1 (event_stage (behind_first H.dig anchors.now onward.chain.value)) onward.chain.value.known.from step onward.chain.value.known.step) }
{
    let top = onward.chain.known.step;
    let way = way_down(onward, step);
    along_path::<H>(alloc, anchors, way, LinkList::new(alloc), top, step)
}

/// Looks for the step of the first event.
#[inline(never)]
pub(crate) fn attempt_tail<H: Hasher>(
    alloc: Global,
    anchors: &[Thread],
    onward: Onward,
    held: &[u8],
) -> Result<Attempt<Stage>, NoMemory>
    ensures { Attempts (rest H.dig anchors.now) (Tail onward) held.now result }
{
    let mut at = 0;
    match take_number(held, &mut at, 8, 1, LAST_STEP) {
        Ok(step) => {
            let next = behind_step::<H>(alloc, anchors, onward, step)?;
            Ok(Attempt::Ended {
                next,
                size: at as usize,
            })
        }
        Err(fault) => missed(Stage::Tail(onward), held, fault),
    }
}

/// Looks at bytes behind a whole proof.
pub(crate) fn attempt_end(judgement: Judgement, held: &[u8]) -> Attempt<Stage>
    ensures { (dig : List ℕ → List ℕ) (anchors : List Anchor) → Attempts (rest dig anchors) (Done judgement) held.now (Ok result) }
{
    if held.len() == 0 {
        return Attempt::Front {
            same: Stage::Done(judgement),
            until: 0,
        };
    }
    Attempt::Broken { place: 0 }
}
