// The greedy rule, which tells the link by which a path goes on downwards. (The hops of a proof are in tw_chain.)

ghost use Rattle.std.specs.Prelude.{◌≡◌, ℕ, ◌-◌, ◌*◌, ◌^◌, ◌<◌, ◌≤◌, List, length};
ghost use Rattle.tw_base.specs.declared.kinds.limits.TheConstants.{LAST_STEP};
ghost use Rattle.tw_base.specs.kinds.Levels.{top_level as top_level_of};
ghost use Rattle.tw_skipproof.specs.declared.path.Link.{Link};
ghost use Rattle.tw_skipproof.specs.Paths.{HasShape, IsGreedy, hop_level};

use tw_base::{power_of_two, top_level};

/// The level of the greedy path's next link, for this crate; `next_hop` is for others.
#[tactic(auto, using(crate::proofs::Hops::levels), unfolding(crate::specs::Paths::hop_level))]
pub(crate) fn level_of_hop(from: u64, to: u64) -> u8
    requires below { to < from }
    requires step { from ≤ LAST_STEP }
    ensures level { result ≡ hop_level from to }
    ensures short { 2 ^ result ≤ from - to }
    ensures within { result ≤ top_level_of from }
    ensures small { result < 40 }
{
    let mut level = top_level(from);
    while level > 0 && power_of_two(level) > from - to {
        level -= 1;
    }
    level
}

/// The level of the greedy path's next link from a step (at most 2^40 - 1) down to a lower one: the
/// greatest l such that 2^l divides `from` and `from - 2^l` is at least `to`. Of a step below
/// 2^d the whole path has at most 2 d links.
pub fn next_hop(from: u64, to: u64) -> u8
    requires below { to < from }
    requires step { from ≤ LAST_STEP }
    ensures level { result ≡ hop_level from to }
    // The next link is the greatest that the step has and that doesn't lead below the lower step: so goes the *greedy
    // path*.
    ensures greedy { IsGreedy from to result }
    // A path from a step of d binary digits has at most 2 d links.
    ensures few_links { (links : List Link) (digits : ℕ) → from < 2 ^ digits → HasShape links from to → length links ≤ 2 * digits }
{
    level_of_hop(from, to)
}
