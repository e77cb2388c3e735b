// Which node of a history's file is the root of each tree page, so that later steps name it by its number.

ghost use Rattle.std.specs.Prelude.{◌≡◌, ℕ, is_some, nat_eq, None, OnOk, Some};
ghost use Rattle.std.specs.Map.{update};
ghost use Rattle.tw_export.specs.NodeNumbers.{node_number_at};
ghost use Rattle.tw_export.specs.Told.{numbers_in};

use std::alloc::Global;
use std::collections::BTreeMap;
use tw_base::NoMemory;

/// Of tree pages, the number of the node that is their root.
#[derive(Drop)]
pub(crate) struct PageNumbers {
    nodes: BTreeMap<u64, u64>,
}

impl PageNumbers {
    /// Of no page. Takes no memory.
    pub(crate) fn new(alloc: Global) -> Self
        ensures { (page : ℕ) → numbers_in result page ≡ None }
    {
        PageNumbers {
            nodes: BTreeMap::new(alloc),
        }
    }

    /// The number of the page's root; None where it has none.
    pub(crate) fn of(&self, page: u64) -> Option<u64>
        ensures { result ≡ numbers_in self.now page }
    {
        self.nodes.get(&page).copied()
    }

    /// Puts the number of a page's root, in place of an earlier one.
    pub(crate) fn put(&mut self, page: u64, node: u64) -> Result<(), NoMemory>
        ensures { OnOk result ((other : ℕ) → numbers_in self.new other ≡ update nat_eq (numbers_in self.old) page (Some node) other) }
    {
        self.nodes.insert(page, node)?;
        Ok(())
    }
}
