// The laws of one page of the archive's tree, whatever the calls do.

ghost use Rattle.std.specs.Prelude.{◌≡◌, ℕ, List, length, map};
ghost use Rattle.tw_base.specs.history.Auth.{tree_label};
ghost use Rattle.tw_base.specs.history.Tree.{Tree, entries};
ghost use Rattle.tw_base.specs.format.Codecs.{IsUnambiguous};
ghost use Rattle.tw_base.specs.format.PageBytes.{IsPageOf};
ghost use Rattle.tw_rbnode.specs.NodeBytes.{fields_of, page_node_codec};
ghost use Rattle.tw_rbnode.specs.Page.{IsNode, TreePage};
ghost use Rattle.tw_rbnode.specs.Trees.{labels_of, page_label, page_tree, woven};

use tw_base::Hasher;

/// What holds of the tree of each page; its clauses are the theorem. The function itself does nothing.
pub fn page_tree_laws<H: Hasher>()
    // Where the children's labels are those of trees, the page's label is that of the tree that the page stands for over them.
    ensures label { (p : TreePage) (trees : List Tree) → labels_of p.children ≡ map (tree_label H.dig) trees →
        page_label H.dig p ≡ tree_label H.dig (page_tree p trees) }
    // That tree lists what the children's trees list, with the page's entries between them.
    ensures list { (p : TreePage) (trees : List Tree) → IsNode p → length trees ≡ length p.children →
        entries (page_tree p trees) ≡ woven (map entries trees) p.entries }
{}

/// What the bytes of pages spell; its clauses are the theorem. The function itself does nothing.
pub fn page_spelling_laws()
    // What a page has in its bytes has one spelling.
    ensures one { IsUnambiguous page_node_codec }
    // Bytes are those of one page at most, so what is written is read as the same page.
    ensures once { (bytes : List ℕ) (p q : TreePage) → IsNode p → IsNode q → IsPageOf page_node_codec bytes (fields_of p) → IsPageOf page_node_codec bytes (fields_of q) → p ≡ q }
{}
