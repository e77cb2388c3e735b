// The last lines that tw_text prints of a script that was played and of a schedule, by the calls for whoever uses the crate alone.

use std::test::Fail;
use tw_base::{Key, KeyList, Name};
use tw_text::{print_generated, print_replayed};

/// The line of a script of one service of two steps.
const REPLAYED: &str =
    "{\"accepted\":0,\"none\":0,\"refused\":0,\"rejected\":0,\"services\":{\"alpha\":2}}\n";

/// The line of a schedule.
const GENERATED: &str =
    "{\"audit\":\"stands\",\"high\":null,\"hops\":2,\"low\":2080,\"steps\":[2081,2081,2081],\"threads\":240,\"verdict\":\"accepted\"}\n";

#[test]
fn the_last_line_of_a_script(rt: HostRuntime) -> Result<(), Fail> {
    let from = Name::read(b"alpha").ok_or("no name")?;
    let mut services = KeyList::new(rt.alloc());
    services.push(Key { from, step: 2 })?;
    let text = print_replayed(rt.alloc(), 0, 0, 0, 0, &services)?;
    assert!(rt; text.as_slice() == REPLAYED.as_bytes());
    Ok(())
}

#[test]
fn the_line_of_a_schedule(rt: HostRuntime) -> Result<(), Fail> {
    let steps = [2081, 2081, 2081];
    let text = print_generated(rt.alloc(), true, None, 2, 2080, steps, 240)?;
    assert!(rt; text.as_slice() == GENERATED.as_bytes());
    Ok(())
}
