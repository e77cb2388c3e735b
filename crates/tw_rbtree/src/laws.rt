// What holds of pages that stand for trees, whatever the calls do.

ghost use Rattle.std.specs.Prelude.{◌≡◌, ◌≢◌, [], Some, slice_get, ℕ, ◌+◌, ◌-◌, ◌*◌, ◌^◌, ◌<◌, ◌≤◌, ◌++◌, List, length, ◌⊎◌, false};
ghost use Rattle.tw_base.specs.declared.history.root.Root.{Root};
ghost use Rattle.tw_base.specs.declared.history.thread.Entry.{Entry};
ghost use Rattle.tw_base.specs.declared.history.thread.Key.{Key};
ghost use Rattle.tw_base.specs.declared.history.tree_proof.Ask.{Ask};
ghost use Rattle.tw_base.specs.declared.history.tree_proof.Ask.TheVariants.{Absent, Present};
ghost use Rattle.tw_base.specs.history.Entries.{key_of};
ghost use Rattle.tw_base.specs.history.Limits.{IsEntryInRange};
ghost use Rattle.tw_base.specs.kinds.Lists.{Each, In};
ghost use Rattle.tw_base.specs.history.Asking.{entry_with, first_above, last_below};
ghost use Rattle.tw_base.specs.history.Tree.{Tree, entries, height};
ghost use Rattle.tw_base.specs.history.TreeProofs.{IsSo, ancestors_of, proof_of};
ghost use Rattle.tw_disk.specs.Found.Found.{Is};
ghost use Rattle.tw_disk.specs.Image.{Image};
ghost use Rattle.tw_disk.specs.declared.limits.TheConstants.{FIRST_PAGE};
ghost use Rattle.tw_rbtree.specs.declared.new_node.NewNode.{NewNode};
ghost use Rattle.tw_rbtree.specs.Listing.{listed};
ghost use Rattle.tw_rbtree.specs.Planting.{AreNodeTrees, IsMarked};
ghost use Rattle.tw_rbnode.specs.Page.{TreePage};
ghost use Rattle.tw_rbtree.specs.OwnPages.{IsEntryOfNew, IsPageUnder, NamesOwn};
ghost use Rattle.tw_rbtree.specs.Postorder.{ListedTree, NamesSides, postorder};
ghost use Rattle.tw_rbtree.specs.Reading.{IsPageAt, levels_in, node_in};
ghost use Rattle.tw_rbtree.specs.Standing.{HasNamed, IsRootTree, Named, StandsForTree, StandsWith, any_page};
ghost use Rattle.tw_rbtree.specs.Ways.{Stop, end_of_way, found_after, found_before, found_with, nowhere, way};
ghost use Rattle.tw_rbtree.specs.Paths.{proof_of_way};
ghost use Rattle.tw_rbtree.specs.Answers.{IsSoAt, found_insert, insert_at};

use tw_base::Hasher;

/// What is found in pages that stand for a tree; its clauses are the theorem. The function itself does nothing.
pub fn standing_laws<H: Hasher>()
    // The tree page of a number that is found is one whose bytes stand there, and that may stand there; and each such page is found.
    ensures page { (ps : Image) (page : ℕ) (p : TreePage) →
        (node_in H.dig ps page ≡ Is p → IsPageAt H.dig ps page p) × (IsPageAt H.dig ps page p → node_in H.dig ps page ≡ Is p) }
    // The entry of a key that is found is the tree's, and none where it has none.
    ensures get { (ps : Image) (root : Root) (t : Tree) (key : Key) → StandsForTree H.dig ps root t →
        found_with H.dig ps root key ≡ Is (entry_with (entries t) key) }
    // The entry before a key that is found is the last one below it of the tree's list.
    ensures before { (ps : Image) (root : Root) (t : Tree) (key : Key) → StandsForTree H.dig ps root t →
        found_before H.dig ps root key ≡ Is (last_below (entries t) key) }
    // The entry after a key that is found is the first one above it of the tree's list.
    ensures after { (ps : Image) (root : Root) (t : Tree) (key : Key) → StandsForTree H.dig ps root t →
        found_after H.dig ps root key ≡ Is (first_above (entries t) key) }
    // What is asked is so at the end of the way where it is so of the tree's entries, and the proof that the way shows is the
    // tree's own.
    ensures path { (ps : Image) (root : Root) (t : Tree) (ask : Ask) → StandsForTree H.dig ps root t →
        (stops : List Stop) × (way H.dig ps ask root ≡ Is stops) × ((IsSo (entries t) ask → IsSoAt ask (end_of_way nowhere stops).met)
        × (IsSoAt ask (end_of_way nowhere stops).met → IsSo (entries t) ask)) × (proof_of_way H.dig stops ≡ proof_of H.dig t ask) }
    // The way of an entry is that of its key.
    ensures present { (ps : Image) (root : Root) (e : Entry) → way H.dig ps (Present e) root ≡ way H.dig ps (Absent (key_of e)) root }
    // Each entry of the tree has its steps within 1 to 2^40 - 1.
    ensures ranges { (ps : Image) (root : Root) (t : Tree) → StandsForTree H.dig ps root t → Each IsEntryInRange (entries t) }
    // Where an entry of the tree has a name, the last one below the name's key with step 2^40 is an entry of the tree with that
    // name too, and it is this entry or has a greater step.
    ensures latest { (ps : Image) (root : Root) (t : Tree) (name : List ℕ) (e : Entry) → StandsForTree H.dig ps root t → In e (entries t) → e.thread.from ≡ name →
        (last : Entry) × (last_below (entries t) (record { from = name; step = 2 ^ 40 }) ≡ Some last) × In last (entries t) × (last.thread.from ≡ name)
        × ((e ≡ last) ⊎ (e.thread.step < last.thread.step)) }
    // Where the tree has fewer than 2^40 entries, an insert tells no bad page: it finds the key, where the tree has an entry of it, and else a new root.
    ensures room { (ps : Image) (root : Root) (t : Tree) (key : Key) → StandsForTree H.dig ps root t → length (entries t) < 2 ^ 40 →
        found_insert H.dig ps root key ≡ insert_at root (entry_with (entries t) key) false }
{}

/// What stands in pages stays as they grow; its clauses are the theorem. The function itself does nothing.
pub fn keeping_laws<H: Hasher>()
    // Pages that stand for a tree under a root still do with others behind them.
    ensures kept { (ps more : Image) (root : Root) (t : Tree) → StandsForTree H.dig ps root t → StandsForTree H.dig (ps ++ more) root t }
    // They do too where the tree's pages below a number are to be named trees.
    ensures kept_named { (ps more : Image) (named : Named) (root : Root) (t : Tree) → StandsWith H.dig (HasNamed named) ps root t →
        StandsWith H.dig (HasNamed named) (ps ++ more) root t }
    // Pages that stand for a tree with named trees stand for it without them.
    ensures any { (ps : Image) (named : Named) (root : Root) (t : Tree) → StandsWith H.dig (HasNamed named) ps root t → StandsForTree H.dig ps root t }
    // Pages that stand for a tree stand for it with named trees too, where no page is named, the number being 0.
    ensures unnamed { (ps : Image) (named : Named) (root : Root) (t : Tree) → named.below ≡ 0 → StandsForTree H.dig ps root t →
        StandsWith H.dig (HasNamed named) ps root t }
    // Pages stand for one tree under a root.
    ensures once { (ps : Image) (root : Root) (s t : Tree) → StandsForTree H.dig ps root s → StandsForTree H.dig ps root t → s ≡ t }
    // A page is one tree, whatever its label and the order of its entries.
    ensures page { (ps : Image) (page : ℕ) (s t : Tree) → IsRootTree H.dig any_page ps page s → IsRootTree H.dig any_page ps page t → s ≡ t }
{}

/// What is listed of pages that stand for a tree; its clauses are the theorem. The function itself does nothing.
pub fn listing_laws<H: Hasher>()
    // Where the root has a page that isn't older than the number, there is a tree for each node listed: its entry over the trees of its sides,
    // which are the empty one, those of nodes before it, and those of pages of the tree from 4 to below the number. It rises, and
    // the node's mark is 0, or the number of the page whose tree it is, which isn't older. The last one is the tree.
    ensures fresh { (ps : Image) (root : Root) (t : Tree) (since : ℕ) → StandsForTree H.dig ps root t → root.page ≢ 0 → since ≤ root.page →
        (nodes : List NewNode) × (trees : List Tree) × (listed H.dig ps since root ≡ Is nodes) × AreNodeTrees H.dig any_page ps since [] nodes trees
        × (0 < length nodes) × (slice_get trees (length nodes - 1) ≡ Some t) }
    // The same where the pages of the tree below a number are to be named trees: so are then the older pages that are named.
    ensures named { (ps : Image) (named : Named) (root : Root) (t : Tree) (since : ℕ) → StandsWith H.dig (HasNamed named) ps root t → root.page ≢ 0 →
        since ≤ root.page → (nodes : List NewNode) × (trees : List Tree) × (listed H.dig ps since root ≡ Is nodes)
        × AreNodeTrees H.dig (HasNamed named) ps since [] nodes trees × (0 < length nodes) × (slice_get trees (length nodes - 1) ≡ Some t) }
    // The entries of each listed node's tree are entries of the tree.
    ensures within { (ps : Image) (root : Root) (t : Tree) (since : ℕ) → StandsForTree H.dig ps root t → root.page ≢ 0 → since ≤ root.page →
        (nodes : List NewNode) × (trees : List Tree) × (listed H.dig ps since root ≡ Is nodes) × AreNodeTrees H.dig any_page ps since [] nodes trees
        × Each (λ s. (e : Entry) → In e (entries s) → In e (entries t)) trees }
    // Whatever the pages keep, an older page at a side of a listed node is a page of the tree under the root, and so is the page that a node's mark names.
    ensures own { (ps : Image) (root : Root) (since : ℕ) (nodes : List NewNode) → listed H.dig ps since root ≡ Is nodes → Each (NamesOwn (IsPageUnder H.dig ps root)) nodes }
    // Whatever the pages keep, no node of an older page is listed: each one's entry stands in a page of the tree under the root from the number on.
    ensures new { (ps : Image) (root : Root) (since : ℕ) (nodes : List NewNode) → listed H.dig ps since root ≡ Is nodes → Each (λ n. IsEntryOfNew H.dig ps root since n.entry) nodes }
    // Whatever the pages keep, the nodes stand in postorder: they are those of one tree, where each node stands behind those of its
    // left side and, behind these, those of its right side, and names both sides.
    ensures order { (ps : Image) (root : Root) (since : ℕ) (nodes : List NewNode) → listed H.dig ps since root ≡ Is nodes →
        (tree : ListedTree) × NamesSides 0 tree × (postorder tree ≡ nodes) }
    // Each page of the tree from the number on is the mark of a listed node.
    ensures marked { (ps : Image) (root : Root) (t : Tree) (since : ℕ) (nodes : List NewNode) → StandsForTree H.dig ps root t → root.page ≢ 0 → since ≤ root.page →
        listed H.dig ps since root ≡ Is nodes → StandsWith H.dig (IsMarked since nodes) ps root t }
    // No page is the mark of two listed nodes.
    ensures apart { (ps : Image) (root : Root) (t : Tree) (since : ℕ) (nodes : List NewNode) → StandsForTree H.dig ps root t → root.page ≢ 0 → since ≤ root.page →
        listed H.dig ps since root ≡ Is nodes → (i j : ℕ) (n m : NewNode) → slice_get nodes i ≡ Some n → slice_get nodes j ≡ Some m →
        n.page ≡ m.page → n.page ≢ 0 → i ≡ j }
    // The last node listed is marked with the root's page.
    ensures last { (ps : Image) (root : Root) (t : Tree) (since : ℕ) → StandsForTree H.dig ps root t → root.page ≢ 0 → since ≤ root.page →
        (nodes : List NewNode) × (n : NewNode) × (listed H.dig ps since root ≡ Is nodes) × (slice_get nodes (length nodes - 1) ≡ Some n) × (n.page ≡ root.page) }
    // Where the root has no page, or an older one, from 4 on, nothing is listed.
    ensures none { (ps : Image) (root : Root) (since : ℕ) → (root.page ≡ 0) ⊎ ((FIRST_PAGE ≤ root.page) × (root.page < since)) → listed H.dig ps since root ≡ Is [] }
{}

/// How long proofs of pages that stand for a tree are, and how high the tree is; its clauses are the theorem. The function itself does nothing.
pub fn size_laws<H: Hasher>()
    // The tree's own proof of an answer has at most 9 nodes above its place for each level of the tree's pages, of which there are more than none
    // only with at least 2 * 13^(levels - 1) - 1 entries.
    ensures size { (ps : Image) (root : Root) (t : Tree) (ask : Ask) → StandsForTree H.dig ps root t →
        (levels : ℕ) × (levels_in H.dig ps root.page ≡ Is levels) × (length (ancestors_of (proof_of H.dig t ask)) ≤ 9 * levels) × (0 < levels → 2 * 13 ^ (levels - 1) ≤ length (entries t) + 1) }
    // The tree is at most 99 high.
    ensures height { (ps : Image) (root : Root) (t : Tree) → StandsForTree H.dig ps root t → height t ≤ 99 }
{}
