// The root record of a service as the `Record` of its store, by the bytes of `root.rt`; a follower's is in tw_follow/src/record.rt.

ghost use Rattle.tw_answers.specs.Roots.{root_kind};

use crate::root::{RootRecord, read_root, root_record};
use arrayvec::ArrayVec;
use tw_base::Hasher;
use tw_disk::Record;

impl Record for RootRecord {
    ghost kind = { λ _. root_kind };

    fn bytes<H: Hasher>(&self) -> ArrayVec<u8, 512> {
        root_record(self)
    }

    fn read<H: Hasher>(bytes: &[u8], used: u64, generation: u64) -> Option<RootRecord> {
        read_root(bytes, used, generation)
    }
}
