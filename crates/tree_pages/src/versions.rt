// The versions of the tree that this program makes, all in one list of pages.

use crate::entries::entry;
use crate::stop::Stop;
use std::alloc::Global;
use tw_base::{NoMemory, Root, Sequence, Sha, empty_tree};
use tw_disk::{MemPages, Pages};
use tw_rbtree::{TreeFault, insert};

/// An insert is tried only below so many pages, as `insert` of tw_rbtree demands.
const MOST_PAGES: u64 = 1 << 47;

/// A version of the tree: how many entries it has, and its root.
#[derive(Clone, Copy, Drop)]
pub struct Version {
    pub entries: u64,
    pub root: Root,
}

/// The versions of a tree so far, their pages, and the version looked at.
#[derive(Drop)]
pub struct Versions {
    pub pages: MemPages,
    all: Sequence<Version>,
    pub now: Version,
}

impl Versions {
    /// The empty version alone.
    pub fn new(alloc: Global) -> Result<Versions, NoMemory> {
        let label = empty_tree::<Sha>();
        let empty = Version {
            entries: 0,
            root: Root { page: 0, label },
        };
        let mut all = Sequence::new(alloc);
        all.push(empty)?;
        Ok(Versions {
            pages: MemPages::new(alloc)?,
            all,
            now: empty,
        })
    }

    /// Makes a version with the entry of this number more than the one looked at, and looks at it.
    pub fn insert(&mut self, alloc: Global, number: u64) -> Result<(), Stop> {
        let entries = self.now.entries.saturating_add(1);
        let more = entry(number, entries).ok_or(Stop::BadLine)?;
        if self.pages.used() >= MOST_PAGES {
            return Err(Stop::Tree(TreeFault::NoMemory));
        }
        let root = insert::<MemPages, Sha>(alloc, &mut self.pages, &self.now.root, more)?;
        self.now = Version { entries, root };
        self.all.push(self.now)?;
        Ok(())
    }

    /// Looks at the version that the insert of this number made; at 0 at the empty one.
    pub fn look_at(&mut self, number: u64) -> Result<(), Stop> {
        let version = self.all.as_slice().get(number as usize);
        self.now = *version.ok_or(Stop::BadLine)?;
        Ok(())
    }
}
