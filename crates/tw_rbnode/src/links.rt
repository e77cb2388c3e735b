// The red-black tree of a page, in slots, which stand in the order of their keys. (A step's links are in tw_skipproof.)

ghost use Rattle.std.specs.Prelude.{◌≡◌, ◌≢◌, ℕ, ◌+◌, ◌-◌, ◌<◌, ◌≤◌, slice_get, Bool, true, false, Option, Some, IfSome, IfNone};
ghost use Rattle.tw_rbnode.specs.Shape.{Shape, Node, Empty, size, is_red, recoloured, join_left, join_right, grown_shape, insert, IsEven};
ghost use Rattle.tw_rbnode.specs.declared.links.Link.{Link};
ghost use Rattle.tw_rbnode.specs.Slots.{IsTree, IsGap, SameOutside, link, bump, bumped};

/// A node of a page's tree. Slots are counted from 1, and 0 is an empty place; 26 are enough for it, for 24 slots and for a shift by one.
#[derive(Clone, Copy, PartialEq, Eq, Default, Debug, Drop)]
pub struct Link {
    pub red: bool,
    pub left: u8,
    pub right: u8,
}

/// The link of a slot.
pub(crate) fn link_at(links: &[Link; 26], slot: u8) -> Link
    requires { slot < 26 }
    ensures { slice_get links.now slot ≡ Some result }
{
    links[slot as usize]
}

/// Sets the link of a slot.
pub(crate) fn put(links: &mut [Link; 26], slot: u8, link: Link)
    requires { slot < 26 }
    ensures there { slice_get links.new slot ≡ Some link }
    ensures others { (k : ℕ) → k ≢ slot → slice_get links.new k ≡ slice_get links.old k }
{
    links[slot as usize] = link;
}

/// Turns three nodes, so that `y` is on top and black, and `x` and `z` are red below it.
fn turn(links: &mut [Link; 26], nodes: (u8, u8, u8), sides: (u8, u8, u8, u8)) -> u8
    requires low { nodes.0 < nodes.1 }
    requires high { nodes.1 < nodes.2 }
    requires last { nodes.2 < 26 }
    ensures top { result ≡ nodes.1 }
    ensures x { slice_get links.new nodes.0 ≡ Some (link true sides.0 sides.1) }
    ensures y { slice_get links.new nodes.1 ≡ Some (link false nodes.0 nodes.2) }
    ensures z { slice_get links.new nodes.2 ≡ Some (link true sides.2 sides.3) }
    ensures others { (k : ℕ) → k ≢ nodes.0 → k ≢ nodes.1 → k ≢ nodes.2 → slice_get links.new k ≡ slice_get links.old k }
{
    put(
        links,
        nodes.0,
        Link {
            red: true,
            left: sides.0,
            right: sides.1,
        },
    );
    put(
        links,
        nodes.1,
        Link {
            red: false,
            left: nodes.0,
            right: nodes.2,
        },
    );
    put(
        links,
        nodes.2,
        Link {
            red: true,
            left: sides.2,
            right: sides.3,
        },
    );
    nodes.1
}

/// Makes the node red and its children black.
fn recolour(links: &mut [Link; 26], at: u8) -> u8
    requires { (base : ℕ) × (red : Bool) × (l : Shape) × (r : Shape) × (IsTree (slice_get links.old) base (Node red l r) at) }
    ensures { (base : ℕ) (l r : Shape) → IsTree (slice_get links.old) base (Node false l r) at → is_red l ≡ true → is_red r ≡ true →
        IsTree (slice_get links.new) base (recoloured l r) result × SameOutside (slice_get links.old) (slice_get links.new) base (base + size l + 1 + size r) }
{
    let node = link_at(links, at);
    let left = link_at(links, node.left);
    let right = link_at(links, node.right);
    put(
        links,
        at,
        Link {
            red: true,
            left: node.left,
            right: node.right,
        },
    );
    put(
        links,
        node.left,
        Link {
            red: false,
            left: left.left,
            right: left.right,
        },
    );
    put(
        links,
        node.right,
        Link {
            red: false,
            left: right.left,
            right: right.right,
        },
    );
    at
}

/// Mends a black node whose left side has grown.
fn settle_left(links: &mut [Link; 26], at: u8) -> u8
    requires { (base : ℕ) × (red : Bool) × (l : Shape) × (r : Shape) × (IsTree (slice_get links.old) base (Node red l r) at) }
    ensures { (base : ℕ) (red : Bool) (l r : Shape) → IsTree (slice_get links.old) base (Node red l r) at →
        IsTree (slice_get links.new) base (join_left red l r) result × SameOutside (slice_get links.old) (slice_get links.new) base (base + size l + 1 + size r) }
{
    let node = link_at(links, at);
    let child = link_at(links, node.left);
    if node.red || !child.red {
        return at;
    }
    let outer = link_at(links, child.left);
    let inner = link_at(links, child.right);
    let other = link_at(links, node.right);
    if outer.red {
        if other.red {
            return recolour(links, at);
        }
        return turn(
            links,
            (child.left, node.left, at),
            (outer.left, outer.right, child.right, node.right),
        );
    }
    if inner.red {
        if other.red {
            return recolour(links, at);
        }
        return turn(
            links,
            (node.left, child.right, at),
            (child.left, inner.left, inner.right, node.right),
        );
    }
    at
}

/// Mends a black node whose right side has grown.
fn settle_right(links: &mut [Link; 26], at: u8) -> u8
    requires { (base : ℕ) × (red : Bool) × (l : Shape) × (r : Shape) × (IsTree (slice_get links.old) base (Node red l r) at) }
    ensures { (base : ℕ) (red : Bool) (l r : Shape) → IsTree (slice_get links.old) base (Node red l r) at →
        IsTree (slice_get links.new) base (join_right red l r) result × SameOutside (slice_get links.old) (slice_get links.new) base (base + size l + 1 + size r) }
{
    let node = link_at(links, at);
    let child = link_at(links, node.right);
    if node.red || !child.red {
        return at;
    }
    let outer = link_at(links, child.right);
    let inner = link_at(links, child.left);
    let other = link_at(links, node.left);
    if outer.red {
        if other.red {
            return recolour(links, at);
        }
        return turn(
            links,
            (at, node.right, child.right),
            (node.left, child.left, outer.left, outer.right),
        );
    }
    if inner.red {
        if other.red {
            return recolour(links, at);
        }
        return turn(
            links,
            (at, child.left, node.right),
            (node.left, inner.left, inner.right, child.right),
        );
    }
    at
}

/// Puts a red node at the empty place, and mends the way up.
fn grow(links: &mut [Link; 26], low: u8, high: u8, at: u8, place: u8) -> u8
    requires { (t : Shape) × (IsGap (slice_get links.old) low high t at place) }
    ensures { (t : Shape) → IsGap (slice_get links.old) low high t at place →
        IsTree (slice_get links.new) low (grown_shape (place - low) t) result × SameOutside (slice_get links.old) (slice_get links.new) low (high + 1) }
{
    if at == 0 {
        put(links, place + 1, LEAF);
        return place + 1;
    }
    let node = link_at(links, at);
    if place < at {
        let left = grow(links, low, at - 2, node.left, place);
        put(
            links,
            at,
            Link {
                red: node.red,
                left,
                right: node.right,
            },
        );
        settle_left(links, at)
    } else {
        let right = grow(links, at, high, node.right, place);
        put(
            links,
            at,
            Link {
                red: node.red,
                left: node.left,
                right,
            },
        );
        settle_right(links, at)
    }
}

/// Where a slot goes as a new one comes behind the place.
fn slot_beside(slot: u8, place: u8) -> u8
    requires { slot < 255 }
    ensures { result ≡ bump place slot }
{
    if slot <= place { slot } else { slot + 1 }
}

/// A link as a new slot comes behind the place.
fn link_beside(link: Link, place: u8) -> Link
    requires left { link.left < 255 }
    requires right { link.right < 255 }
    ensures { result ≡ bumped place link }
{
    Link {
        red: link.red,
        left: slot_beside(link.left, place),
        right: slot_beside(link.right, place),
    }
}

/// A link that leads nowhere.
pub(crate) const BLANK: Link = Link {
    red: false,
    left: 0,
    right: 0,
};

/// A red node without children.
pub(crate) const LEAF: Link = Link {
    red: true,
    left: 0,
    right: 0,
};

/// The slots with a new one behind the place, to which no node leads. (No tree has a slot of 255: the check keeps `+ 1` in range.)
fn opened(links: &[Link; 26], place: u8) -> [Link; 26]
    ensures { (k : ℕ) (x : Link) → k < 25 → slice_get links.now k ≡ Some x → x.left < 255 → x.right < 255 → slice_get result (bump place k) ≡ Some (bumped place x) }
{
    let mut out = [BLANK; 26];
    for slot in 0..25u8 {
        let link = link_at(links, slot);
        if link.left < 255 && link.right < 255 {
            put(&mut out, slot_beside(slot, place), link_beside(link, place));
        }
    }
    out
}

/// The tree with one more node at the place, and its root slot.
pub(crate) fn with_node(links: &[Link; 26], top: u8, count: u8, place: u8) -> ([Link; 26], u8)
    requires tree { (t : Shape) × (IsTree (slice_get links.now) 0 t top) × (size t ≡ count) }
    requires room { count < 25 }
    requires there { place ≤ count }
    ensures { (t : Shape) → IsTree (slice_get links.now) 0 t top → size t ≡ count → IsTree (slice_get result.0) 0 (insert place t) result.1 }
{
    let mut out = opened(links, place);
    let grown = grow(&mut out, 0, count, slot_beside(top, place), place);
    let root = link_at(&out, grown);
    put(
        &mut out,
        grown,
        Link {
            red: false,
            left: root.left,
            right: root.right,
        },
    );
    (out, grown)
}

/// How many black nodes stand on each way down, where the slots above `low` up to `high` are a red-black tree, whose root may be red.
pub(crate) fn height_in(links: &[Link; 26], low: u8, high: u8, at: u8) -> Option<u8>
    requires blank { slice_get links.now 0 ≡ Some (link false 0 0) }
    requires order { low ≤ high }
    requires last { high < 26 }
    ensures found { IfSome result (λ h. (t : Shape) × (IsTree (slice_get links.now) low t at) × (high ≡ low + size t) × (IsEven h t) × (h ≤ size t)) }
    ensures none { IfNone result ((t : Shape) (h : ℕ) → IsTree (slice_get links.now) low t at → high ≡ low + size t → IsEven h t → ⊥) }
{
    if at == 0 {
        return if low == high { Some(0) } else { None };
    }
    if at <= low || high < at {
        return None;
    }
    let node = link_at(links, at);
    match height_in(links, low, at - 1, node.left) {
        None => None,
        Some(left) => match height_in(links, at, high, node.right) {
            None => None,
            Some(right) => {
                if left != right {
                    None
                } else if !node.red {
                    Some(left + 1)
                } else if link_at(links, node.left).red {
                    None
                } else if link_at(links, node.right).red {
                    None
                } else {
                    Some(left)
                }
            }
        },
    }
}
