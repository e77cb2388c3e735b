// Why a call on a tree in pages that takes memory has no answer; the others answer a `WalkFault` of tw_disk.

ghost use Rattle.std.specs.Prelude.{◌≡◌};
ghost use Rattle.tw_rbtree.specs.declared.fault.TreeFault.TheVariants.{NoMemory as WantedMemory};

use tw_base::NoMemory;
use tw_disk::WalkFault;

/// Why a call that takes memory has no answer.
#[derive(Clone, Copy, Debug, PartialEq, Eq, Drop)]
pub enum TreeFault {
    /// `insert`: the tree has an entry of the key.
    Present,
    /// `path`: what is asked isn't so of the tree.
    Untrue,
    /// The page of this number doesn't fit the walk: it is none of the pages, or no tree page of the wanted level, or has too few
    /// keys, or one that doesn't lie between those on either side of the way down to it; or it is the root's page, of the greatest level,
    /// which an insert would split.
    BadPage { page: u64 },
    /// A read failed; the count of faults of the pages rose in this call.
    DiskFault,
    /// There was no memory.
    NoMemory,
}

impl From<NoMemory> for TreeFault {
    ghost from_gives = { λ _ fault. fault ≡ WantedMemory };

    fn from(_none: NoMemory) -> Self {
        TreeFault::NoMemory
    }
}

impl From<WalkFault> for TreeFault {
    ghost use Rattle.tw_rbtree.specs.FaultWords.{tree_fault};

    ghost from_gives = { λ walk fault. fault ≡ tree_fault walk };

    fn from(fault: WalkFault) -> Self {
        match fault {
            WalkFault::BadPage { page } => TreeFault::BadPage { page },
            WalkFault::DiskFault => TreeFault::DiskFault,
        }
    }
}
