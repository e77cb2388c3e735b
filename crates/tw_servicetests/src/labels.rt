// The worked values of two small histories, under the digest whose first byte is the sum of the text.

use crate::weak::short;
use std::process::Abort;
use tw_base::{
    Entry, Name, Thread, Weak, authenticator, datum, empty_tree, event_leaf, genesis, link_label,
    no_events, step_datum, timed_datum, tree_node,
};

fn name_of(rt: &impl Abort, text: &[u8]) -> Name {
    Name::read(text).expect(rt, "a name")
}

/// Step 1 of `a`, of one event of no bytes: its time, and its datum, label and authenticator.
const FIRST: [(Option<u64>, u8, u8, u8); 2] = [
    (None, 0x28, 0xab, 0xbf),
    (Some(5), 0x30, 0xb3, 0xc7),
];

/// Step 2 of `a`, of the event `hi`: the authenticator of step 1, its label over that, and its authenticator.
const SECOND: [(u8, u8, u8); 2] = [(0xbf, 0xcb, 0x5f), (0xc7, 0xd3, 0x67)];

/// Whether a step 1 of this time has these.
fn is_first(time: Option<u64>, datum: u8, label: u8, auth: u8) -> bool {
    let leaf = event_leaf::<Weak>(b"");
    let own = step_datum::<Weak>(&leaf, &empty_tree::<Weak>(), 1, time);
    let labels = [link_label::<Weak>(1, 0, &own, &short(0x71))];
    own == short(datum)
        && labels == [short(label)]
        && authenticator::<Weak>(1, &labels) == short(auth)
}

/// Whether the step 2 behind that authenticator has these.
fn is_second(first: u8, label: u8, auth: u8) -> bool {
    let leaf = event_leaf::<Weak>(b"hi");
    let own = step_datum::<Weak>(&leaf, &empty_tree::<Weak>(), 1, None);
    let lower = link_label::<Weak>(2, 0, &own, &short(first));
    let labels = [lower, link_label::<Weak>(2, 1, &own, &short(0x71))];
    own == short(0xf9)
        && labels == [short(label), short(0x7e)]
        && authenticator::<Weak>(2, &labels) == short(auth)
}

#[test]
fn two_steps_of_events(rt: HostRuntime) {
    assert_eq!(rt; genesis::<Weak>(&name_of(&rt, b"a")), short(0x71));
    assert_eq!(rt; event_leaf::<Weak>(b"hi"), short(0xd1));
    for (time, datum, label, auth) in FIRST {
        assert!(rt; is_first(time, datum, label, auth));
    }
    for (first, label, auth) in SECOND {
        assert!(rt; is_second(first, label, auth));
    }
}

#[test]
fn a_datum_with_a_time(rt: HostRuntime) {
    let leaf = event_leaf::<Weak>(b"");
    let timed = timed_datum::<Weak>(&leaf, &empty_tree::<Weak>(), 1, 5);
    assert_eq!(rt; timed, short(0x30));
}

#[test]
fn a_step_that_received_a_thread(rt: HostRuntime) {
    let genesis = genesis::<Weak>(&name_of(&rt, b"b"));
    assert_eq!(rt; genesis, short(0x72));
    let thread = Thread {
        from: name_of(&rt, b"a"),
        step: 1,
        auth: short(0xbf),
    };
    let entry = Entry {
        thread,
        archived: 1,
    };
    let tree = tree_node::<Weak>(&empty_tree::<Weak>(), &entry, &empty_tree::<Weak>());
    assert_eq!(rt; tree, short(0x5f));
    let datum = datum::<Weak>(&no_events::<Weak>(), &tree, 0);
    assert_eq!(rt; datum, short(0x72));
    let label = link_label::<Weak>(1, 0, &datum, &genesis);
    assert_eq!(rt; label, short(0xf6));
    assert_eq!(rt; authenticator::<Weak>(1, &[label]), short(0x0a));
}
