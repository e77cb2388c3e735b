// The links of a path down a history in memory; tw_skiplist/src/collecting.rt has those of one down pages.

ghost use Rattle.std.specs.Prelude.{◌≡◌, ◌^◌, ◌<◌, ◌≤◌, List, length, reverse, IfOk, OnOk};
ghost use Rattle.tw_skipproof.specs.HistoryProofs.{IsPathOf};
ghost use Rattle.tw_history.specs.PassSteps.{HasPassed};
ghost use Rattle.tw_base.specs.declared.kinds.limits.TheConstants.{LAST_STEP};

use crate::history::History;
use crate::lookup::content_behind;
use crate::pass::{Digests, pass_step, pass_steps};
use crate::step_digests::{link_at, root_of_events};
use std::alloc::Global;
use tw_base::{Hasher, NoMemory, Unwritten, power_of_two};
use tw_skipproof::{Link, next_hop};

/// The links of the path down from a step, in the order in which a pass comes by: from the lower
/// step, which it has passed, upwards; the pass goes on to the upper step. A path has at most 80 links,
/// and so many calls are open.
pub(crate) fn links_upwards<H: Hasher>(
    alloc: Global,
    history: &History,
    from: u64,
    to: u64,
    digests: &mut Digests,
    texts: &mut Unwritten<H>,
) -> Result<Vec<Link>, NoMemory>
    requires order { to ≤ from }
    requires inside { from ≤ length history.now.steps }
    requires few { from ≤ LAST_STEP }
    requires passed { HasPassed H.dig history.now to digests.old }
    ensures links { IfOk result (λ links. IsPathOf H.dig history.now (reverse links.items) from to) }
    ensures passed { OnOk result (HasPassed H.dig history.now from digests.new) }
{
    if from <= to {
        return Ok(Vec::new(alloc));
    }
    let level = next_hop(from, to);
    let below = from - power_of_two(level);
    let mut links = links_upwards(alloc, history, below, to, digests, texts)?;
    pass_steps(history, below, from - 1, digests, texts)?;
    let event_root = root_of_events(content_behind(history, from - 1), texts);
    let passed = pass_step(history, from - 1, event_root, digests, texts)?;
    let link = link_at(alloc, &passed, level)?;
    links.push(link)?;
    Ok(links)
}
