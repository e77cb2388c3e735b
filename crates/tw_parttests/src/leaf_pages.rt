// Leaf pages of an archive's tree: their shapes and colours, by the bytes that are written of them, and one that is full.

ghost use Rattle.std.specs.Prelude.{◌≡◌};
ghost use Rattle.tw_base.specs.history.Limits.{IsEntryInRange, IsStep};
ghost use Rattle.tw_rbnode.specs.Children.{IsChildAt};
ghost use Rattle.tw_rbnode.specs.Page.{TreePage};
ghost use Rattle.tw_rbnode.specs.declared.node.Added.TheVariants.{One};

use std::process::Abort;
use tw_base::{Digest, Entry, Hasher, Name, Page, Sha, Thread, empty_tree, entry_key};
use tw_rbnode::{Added, Child, Found, RbNode, add, find, read_node, single, write_node};

/// A leaf page.
#[derive(Drop)]
struct Leaf {
    page: RbNode,
    ghost level: { page.level ≡ 0 },
}

/// What stands at an empty place of a leaf page.
fn nothing<H: Hasher>() -> Child
    ensures { IsChildAt H.dig 0 result }
{
    Child {
        page: 0,
        label: empty_tree::<H>(),
    }
}

/// The entry of a step of the service `a`, received at step 1.
fn entry(rt: &impl Abort, step: u64) -> Entry
    requires { IsStep step }
    ensures { IsEntryInRange result }
{
    Entry {
        thread: Thread {
            from: Name::read(b"a").expect(rt, "a name"),
            step,
            auth: Digest([7; 32]),
        },
        archived: 1,
    }
}

/// The page of the entry of this step.
fn one(rt: &impl Abort, step: u64) -> Leaf
    requires { IsStep step }
{
    let page = single::<Sha>(0, entry(rt, step), nothing::<Sha>(), nothing::<Sha>());
    Leaf { page }
}

/// What comes of the entry of a step more.
fn with(rt: &impl Abort, leaf: &Leaf, step: u64) -> Added
    requires { IsStep step }
    ensures { (page : TreePage) → result ≡ One page → page.level ≡ 0 }
{
    let entry = entry(rt, step);
    match find(&leaf.page, &entry_key(&entry)) {
        Found::At(_) => panic!(rt; "a key twice"),
        Found::Between(place) => add::<Sha>(
            &leaf.page,
            place,
            entry,
            nothing::<Sha>(),
            nothing::<Sha>(),
        ),
    }
}

/// The page with the entry of a step more, which is one.
fn more(rt: &impl Abort, leaf: &Leaf, step: u64) -> Leaf
    requires { IsStep step }
{
    match with(rt, leaf, step) {
        Added::One(page) => Leaf { page },
        Added::Two { .. } => panic!(rt; "two pages"),
    }
}

/// The page of the entries of the steps up to this one.
fn up_to(rt: &impl Abort, last: u8) -> Leaf {
    let mut leaf = one(rt, 1);
    for step in 2..=last {
        leaf = more(rt, &leaf, step as u64);
    }
    leaf
}

/// A page's shape: its root's slot, the colour of each slot, 0 black and 1 red, and some slots with those of their two sides.
#[derive(Clone, Copy, Drop)]
struct Shape {
    root: u8,
    colours: &'static [u8],
    sides: &'static [(usize, u8, u8)],
}

/// That of three keys.
const THREE: Shape = Shape {
    root: 2,
    colours: b"101",
    sides: &[(2, 1, 3)],
};

/// That of five keys, which came in their order.
const FIVE: Shape = Shape {
    root: 2,
    colours: b"00101",
    sides: &[(2, 1, 4), (4, 3, 5)],
};

/// That of the left one of the pages of 24 keys and one more, which came in their order.
const LEFT: Shape = Shape {
    root: 7,
    colours: b"101010010010",
    sides: &[
        (7, 4, 10),
        (4, 2, 6),
        (10, 9, 12),
        (2, 1, 3),
        (6, 5, 0),
        (9, 8, 0),
        (12, 11, 0),
    ],
};

/// Whether the slots in the page's bytes have these colours.
fn has_colours(bytes: &Page, colours: &[u8]) -> bool {
    for (slot, colour) in colours.iter().enumerate() {
        if slot >= 24 || bytes[4 + 67 * slot] != (*colour & 1) {
            return false;
        }
    }
    true
}

/// Whether these slots, counted from 1, have these sides there.
fn has_sides(bytes: &Page, sides: &[(usize, u8, u8)]) -> bool {
    for (slot, left, right) in sides {
        if *slot == 0
            || *slot > 24
            || bytes[67 * *slot - 62] != *left
            || bytes[67 * *slot - 61] != *right
        {
            return false;
        }
    }
    true
}

/// Whether the page is written in this shape.
fn has_shape(leaf: &Leaf, shape: &Shape) -> bool {
    let bytes = write_node(&leaf.page);
    bytes[3] == shape.root && has_colours(&bytes, shape.colours) && has_sides(&bytes, shape.sides)
}

#[test]
fn three_keys_in_two_orders_and_five(rt: HostRuntime) {
    assert!(rt; has_shape(&up_to(&rt, 3), &THREE));
    let turned = more(&rt, &more(&rt, &one(&rt, 1), 3), 2);
    assert!(rt; write_node(&turned.page) == write_node(&up_to(&rt, 3).page));
    assert!(rt; has_shape(&up_to(&rt, 5), &FIVE));
}

#[test]
fn a_full_page_becomes_two(rt: HostRuntime) {
    match with(&rt, &up_to(&rt, 24), 25) {
        Added::One(_) => panic!(rt; "one page of 25 keys"),
        Added::Two { left, middle, .. } => {
            assert_eq!(rt; middle.thread.step, 13);
            let bytes = write_node(&left);
            assert_eq!(rt; bytes[3], LEFT.root);
            assert!(rt; has_colours(&bytes, LEFT.colours));
            assert!(rt; has_sides(&bytes, LEFT.sides));
        }
    }
}

#[test]
fn the_bytes_of_one_key(rt: HostRuntime) {
    let mut bytes = write_node(&one(&rt, 1).page);
    assert!(rt; bytes[3] == 1 && bytes[4] == 0);
    assert!(rt; bytes[150] != 0 && bytes[151..] == [0; 3945]);
    assert!(rt; read_node::<Sha>(&bytes, 4).is_some());
    bytes[4] = 1;
    assert!(rt; read_node::<Sha>(&bytes, 4).is_none(), "a red root");
}
