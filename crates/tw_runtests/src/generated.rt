// What 2,000 rounds of three services take on the disks that they are handed back on.

use std::test::Fail;
use tw_base::Failed;
use tw_disk::{Disk, MemDisk};
use tw_generate::generate;

/// The line that is told of them.
const LINE: &str =
    "{\"audit\":\"stands\",\"high\":null,\"hops\":2,\"low\":2080,\"steps\":[2081,2081,2081],\"threads\":240,\"verdict\":\"accepted\"}\n";

/// How many bytes the disk has.
fn size(disk: MemDisk) -> Result<u64, Failed> {
    let mut disk = disk;
    Ok(disk.pages()?.saturating_mul(4096))
}

#[test]
fn two_thousand_rounds_take_less_than_60_million_bytes_a_disk(rt: HostRuntime) -> Result<(), Fail> {
    let made = generate(rt.alloc(), 7, 2000)?;
    assert!(rt; made.text.as_slice() == LINE.as_bytes());
    for disk in [made.alpha, made.beta, made.gamma] {
        assert!(rt; size(disk)? < 60_000_000);
    }
    Ok(())
}
