// Each command once, done: four services and a follower, what they write, and what is judged of it under lines that the
// reference tells. So each public call that takes memory, of those that the program makes, is seen to succeed; tw_parttests has the
// others. All statuses and texts are shown by the acceptance run.

use crate::playing::after_all;
use std::alloc::Global;
use std::process::Abort;
use tw_disk::MemDisk;
use tw_outside::MemInputs;

/// The lines of three services at their step 2, as the reference tells them.
const LINES: &str =
    "bank 2 2efb1eed1b0bf1f9b7261ad9da486337f6ad65fdfe573650a12c2d2db9367214\nshop 2 52d96319f9691d5a1262f8f3887bbebbff5a56d9388b53fb27c7a855375d0ef4\ntown 2 c48d456cd23b7a068187dd78a509ebd068fcc39878b40d78027aa56f2b44c5b0\n";

/// A script in which `b` receives a message of `a`.
const SCRIPT: &str = "service a\nservice b\nappend a 01\nsend a 0\ndeliver 1 b\n";

/// The service `shop` records two events and tells its step.
const SHOP: [(&str, &str); 4] = [
    ("init d shop", "told"),
    ("append d goods", "told"),
    ("thread d 0", "message"),
    ("prove d event 1 0 1", "earlier"),
];

/// The service `bank` receives that, and records events of its own at the time 7.
const BANK: [(&str, &str); 9] = [
    ("init d bank", "told"),
    ("receive d message", "receipt"),
    ("append d goods 7", "told"),
    ("prove d event 2 0", "later"),
    ("prove d thread 1 shop 1", "thread"),
    ("prove d absent 1 shop 2", "absent"),
    ("map d low 2 shop", "low"),
    ("thread d 0", "reply"),
    ("export d", "bank.history"),
];

/// The service `shop` receives a message of `bank`.
const REPLIED: [(&str, &str); 4] = [
    ("receive d reply 7", "answer"),
    ("prove d link 1", "link"),
    ("map d high 2 bank", "high"),
    ("export d", "shop.history"),
];

/// Another service calls itself `shop`.
const OTHER: [(&str, &str); 3] = [
    ("init d shop", "told"),
    ("append d beer", "told"),
    ("thread d 0", "lie"),
];

/// The service `town` receives its message.
const TOWN: [(&str, &str); 4] = [
    ("init d town", "told"),
    ("receive d lie", "told"),
    ("append d goods", "told"),
    ("prove d thread 1 shop 1", "second"),
];

/// A follower of `shop`.
const FOLLOWER: [(&str, &str); 3] = [
    ("watch d shop", "told"),
    ("offer d message", "told"),
    ("heads d", "told"),
];

/// The commands over files alone.
const FILES: [(&str, &str); 13] = [
    ("join later thread link earlier", "chain"),
    ("accuse thread second", "evidence"),
    ("show shop.history 1 1", "told"),
    ("verify absent lines", "told"),
    ("verify chain lines", "told"),
    ("strict chain lines", "told"),
    ("checkmap low high lines", "told"),
    ("checkfork evidence lines", "told"),
    ("audit chain lines shop.history bank.history", "told"),
    ("adopt shop.history lines thread", "told"),
    ("atlas shop 1 receipt answer", "told"),
    ("replay script", "told"),
    ("generate 1 60", "told"),
];

/// The files that the services begin with, the script, and the lines.
fn given(rt: &impl Abort, alloc: Global) -> MemInputs {
    let mut inputs = MemInputs::new(alloc);
    let goods = b"TWE1\0\0\0\x02\0\0\0\x05bread\0\0\0\x04milk";
    inputs.put("goods", goods).expect(rt, "memory");
    let beer = b"TWE1\0\0\0\x01\0\0\0\x04beer";
    inputs.put("beer", beer).expect(rt, "memory");
    let script = SCRIPT.as_bytes();
    inputs.put("script", script).expect(rt, "memory");
    inputs.put("lines", LINES.as_bytes()).expect(rt, "memory");
    inputs
}

/// A new disk after these runs.
fn made(rt: &impl Abort, alloc: Global, inputs: &mut MemInputs, lines: &[(&str, &str)]) -> MemDisk {
    after_all(rt, alloc, MemDisk::new(alloc), inputs, lines)
}

#[test]
fn each_command_is_done(rt: HostRuntime) {
    let alloc = rt.alloc();
    let mut inputs = given(&rt, alloc);
    let shop = made(&rt, alloc, &mut inputs, &SHOP);
    drop(made(&rt, alloc, &mut inputs, &BANK));
    drop(after_all(&rt, alloc, shop, &mut inputs, &REPLIED));
    drop(made(&rt, alloc, &mut inputs, &OTHER));
    drop(made(&rt, alloc, &mut inputs, &TOWN));
    drop(made(&rt, alloc, &mut inputs, &FOLLOWER));
    drop(made(&rt, alloc, &mut inputs, &FILES));
}
