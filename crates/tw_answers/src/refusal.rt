// What the fault of a call on a tree is to a service.

ghost use Rattle.std.specs.Prelude.{◌≡◌};
ghost use Rattle.tw_answers.specs.Refusals.{refusal_of_tree as refusal_of_tree_fault};

use tw_base::{Refusal, Root};
use tw_rbtree::TreeFault;

/// What the fault of a call on a tree is to the service, under this root. That a key is there, or that what
/// is asked isn't so, was told otherwise by a call before: then pages that are read don't fit one another,
/// and the root's page is told.
pub fn refusal_of_tree(root: &Root, fault: TreeFault) -> Refusal
    ensures { result ≡ refusal_of_tree_fault root.now fault }
{
    match fault {
        TreeFault::Present | TreeFault::Untrue => Refusal::BadPage { page: root.page },
        TreeFault::BadPage { page } => Refusal::BadPage { page },
        TreeFault::DiskFault => Refusal::DiskFault,
        TreeFault::NoMemory => Refusal::NoMemory,
    }
}
