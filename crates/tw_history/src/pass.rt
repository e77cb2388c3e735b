// A pass over the steps of a history, from the first on, in which each text is hashed once, and handed on.

ghost use Rattle.std.specs.Prelude.{◌≡◌, ℕ, ◌+◌, ◌<◌, ◌≤◌, List, ◌++◌, length, map, slice_index_or, IfOk, OnOk};
ghost use Rattle.tw_base.specs.history.Auth.{auth, tree_label};
ghost use Rattle.tw_base.specs.events.EventTree.{event_root as event_root_of};
ghost use Rattle.tw_base.specs.history.History.{History as HistoryMeant, entry_to, events_at};
ghost use Rattle.tw_base.specs.history.HistoryTexts.{node_texts, texts_to};
ghost use Rattle.tw_base.specs.history.Tree.{Tree, branch, planted};
ghost use Rattle.tw_base.specs.history.Tree.Tree.{Empty};
ghost use Rattle.tw_history.specs.Tables.{node_of};
ghost use Rattle.tw_history.specs.PassSteps.{HandsOn, HasPassed, IsLabelTold, IsOfStep, texts_of_rest};
ghost use Rattle.tw_base.specs.kinds.Handing.{Hands};

use crate::history::History;
use crate::links::{at_level, keep_auth};
use crate::lookup::{content_behind, entry_up_to, step_behind};
use crate::step::Node;
use crate::step_digests::{StepDigests, count_of_events, digests_of_step, root_of_events};
use std::alloc::Global;
use tw_base::{
    Digest, Labels, NoMemory, Transcript, authenticator_told, empty_tree_told, genesis_told,
    tree_node_told,
};

/// What a pass over a history's steps keeps of those behind it: the labels of the trees of their nodes, by
/// number, 0 the empty tree's; and of each level from 0 on the authenticator of the last of them, step 0
/// included, that 2^level divides. The links of the next step lead to these.
#[derive(Drop)]
pub struct Digests {
    pub(crate) tree_labels: Labels,
    pub(crate) latest: [Digest; 40],
}

/// A pass before the first step; the transcript takes the texts of the history's name and of the empty
/// tree. Its memory is linear in the history's nodes.
pub fn begin_pass<T: Transcript>(
    alloc: Global,
    history: &History,
    texts: &mut T,
) -> Result<Digests, NoMemory>
    // A pass that was begun has passed no step.
    ensures passed { IfOk result (HasPassed T.dig history.now 0) }
    // It hands on the texts before the first step.
    ensures took { OnOk result (Hands T.took texts.old texts.new (texts_to T.dig history.now 0)) }
{
    let nodes = history.nodes.len().saturating_add(1);
    let mut tree_labels = Labels::with_capacity(alloc, nodes)?;
    let latest = [genesis_told(&history.name, texts); 40];
    tree_labels.push(empty_tree_told(texts))?;
    Ok(Digests {
        tree_labels,
        latest,
    })
}

/// The label of the tree of this number; a missing number stands for the empty tree.
fn label_of_tree(tree_labels: &[Digest], number: u32) -> &Digest
    requires { 0 < length tree_labels.now }
    ensures { (dig : List ℕ → List ℕ) (trees : List Tree) → tree_labels.now ≡ map (tree_label dig) trees → slice_index_or trees 0 Empty ≡ Empty →
        result.now ≡ tree_label dig (slice_index_or trees number Empty) }
{
    match tree_labels.get(number as usize) {
        Some(label) => label,
        None => &tree_labels[0],
    }
}

/// The label of the tree of a node that the step adds.
fn label_of_node<T: Transcript>(
    history: &History,
    step: u64,
    node: &Node,
    tree_labels: &[Digest],
    texts: &mut T,
) -> Digest
    requires { 0 < length tree_labels.now }
    ensures { (trees : List Tree) → tree_labels.now ≡ map (tree_label T.dig) trees → slice_index_or trees 0 Empty ≡ Empty →
        IsLabelTold T.dig T.took texts.old texts.new result (branch (entry_to history.now step node.now.entry) (slice_index_or trees node.now.left Empty) (slice_index_or trees node.now.right Empty)) }
{
    let left = label_of_tree(tree_labels, node.left);
    let right = label_of_tree(tree_labels, node.right);
    match entry_up_to(history, step, node.entry) {
        None => *label_of_tree(tree_labels, 0),
        Some(entry) => tree_node_told(left, &entry, right, texts),
    }
}

/// Appends the labels of the trees of the nodes that the step adds.
fn label_nodes<T: Transcript>(
    history: &History,
    step: u64,
    fresh: &[Node],
    tree_labels: &mut Labels,
    texts: &mut T,
) -> Result<(), NoMemory>
    requires { 0 < length tree_labels.old }
    ensures labels { OnOk result ((trees : List Tree) → tree_labels.old ≡ map (tree_label T.dig) trees → slice_index_or trees 0 Empty ≡ Empty →
        tree_labels.new ≡ map (tree_label T.dig) (trees ++ planted (entry_to history.now step) trees (map node_of fresh.now))) }
    ensures took { OnOk result ((trees : List Tree) → tree_labels.old ≡ map (tree_label T.dig) trees → slice_index_or trees 0 Empty ≡ Empty →
        Hands T.took texts.old texts.new (node_texts T.dig (planted (entry_to history.now step) trees (map node_of fresh.now)))) }
{
    for node in fresh {
        let label = label_of_node(history, step, node, tree_labels.as_slice(), texts);
        tree_labels.push(label)?;
    }
    Ok(())
}

/// Passes the step behind the first `index` steps, of whose events this is the root; their texts were
/// handed on before.
pub(crate) fn pass_step<T: Transcript>(
    history: &History,
    index: u64,
    event_root: Digest,
    digests: &mut Digests,
    texts: &mut T,
) -> Result<StepDigests, NoMemory>
    requires inside { index < length history.now.steps }
    requires passed { HasPassed T.dig history.now index digests.old }
    requires event_root { event_root ≡ event_root_of T.dig (events_at history.now (index + 1)) }
    ensures passed { OnOk result (HasPassed T.dig history.now (index + 1) digests.new) }
    ensures step { IfOk result (IsOfStep T.dig history.now (index + 1)) }
    ensures took { OnOk result (Hands T.took texts.old texts.new (texts_of_rest T.dig history.now index)) }
{
    let (step, fresh) = step_behind(history, index, digests.tree_labels.len() - 1);
    label_nodes(history, index + 1, fresh, &mut digests.tree_labels, texts)?;
    let passed = digests_of_step(
        index + 1,
        event_root,
        *label_of_tree(digests.tree_labels.as_slice(), step.root),
        count_of_events(&step.content),
        step.time,
        &digests.latest,
        texts,
    );
    let auth = authenticator_told(index + 1, passed.labels.as_slice(), texts);
    keep_auth(&mut digests.latest, index + 1, auth);
    Ok(passed)
}

/// Passes the steps behind the first `from` ones up to the step `to`, at most the last; the transcript takes
/// what their authenticators hash, each text once.
pub fn pass_steps<T: Transcript>(
    history: &History,
    from: u64,
    to: u64,
    digests: &mut Digests,
    texts: &mut T,
) -> Result<(), NoMemory>
    requires order { from ≤ to }
    requires inside { to ≤ length history.now.steps }
    requires passed { HasPassed T.dig history.now from digests.old }
    // A pass goes on from one step to a later one.
    ensures passed { OnOk result (HasPassed T.dig history.now to digests.new) }
    // It hands on the texts of the steps between.
    ensures took { OnOk result (HandsOn T.dig history.now T.took texts.old texts.new from to) }
{
    for index in from..to {
        let event_root = root_of_events(content_behind(history, index), texts);
        pass_step(history, index, event_root, digests, texts)?;
    }
    Ok(())
}

/// The authenticator of the last step that was passed, or of step 0 before the first.
pub fn auth_passed(digests: &Digests) -> Digest
    // A pass tells the authenticator of the last step that it has passed.
    ensures { (dig : List ℕ → List ℕ) (h : HistoryMeant) (last : ℕ) → HasPassed dig h last digests.now → result ≡ auth dig h last }
{
    *at_level(&digests.latest, 0)
}
