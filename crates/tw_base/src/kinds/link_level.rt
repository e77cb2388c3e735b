// The levels of a step's links.

ghost use Rattle.std.specs.Prelude.{◌≡◌, ℕ, ◌^◌, ◌%◌, ◌<◌, ◌≤◌};
ghost use Rattle.tw_base.specs.declared.kinds.limits.TheConstants.{LAST_STEP};
ghost use Rattle.tw_base.specs.kinds.Levels.{top_level as top_level_of};

/// The greatest level of a step's links: the greatest l such that 2^l divides the step (0 to
/// 2^40 - 1), and 0 for step 0, which has no link. A step from 1 on has one link more than this.
#[tactic(auto, using(crate::proofs::lemmas::kinds::Levels::top_levels))]
pub fn top_level(step: u64) -> u8
    requires { step ≤ LAST_STEP }
    ensures value { result ≡ top_level_of step }
    ensures small { result < 40 }
    // The greatest level of a step's links is one whose power of two divides the step.
    ensures divides { 0 < step → step % 2 ^ result ≡ 0 }
    // No greater one does.
    ensures greatest { (level : ℕ) → 0 < step → step % 2 ^ level ≡ 0 → level ≤ result }
{
    if step == 0 {
        return 0;
    }
    step.trailing_zeros() as u8
}

/// The power of two of an exponent below 64: how many steps a link of that level leads down.
pub fn power_of_two(exponent: u8) -> u64
    requires { exponent < 64 }
    ensures { result ≡ 2 ^ exponent }
{
    1 << exponent
}
