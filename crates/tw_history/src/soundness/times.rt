// Whether the times of a history's steps rise, while it is judged.

ghost use Rattle.std.specs.Prelude.{◌↔◌, ◌≤◌, ◌++◌, List, ℕ, IsTrue, IfSome};
ghost use Rattle.std.specs.Option.{option_to_list};
ghost use Rattle.tw_base.specs.kinds.Lists.{Each};
ghost use Rattle.tw_history.specs.JudgingSteps.{IsGreatestTime};

/// Whether the time isn't below the greatest of those before it.
pub(super) fn doesnt_fall(greatest: u64, time: Option<u64>) -> bool
    ensures { (times : List ℕ) → IsGreatestTime times greatest → (IsTrue result ↔ IfSome time (λ t. Each (λ earlier. earlier ≤ t) times)) }
{
    match time {
        Some(time) => greatest <= time,
        None => true,
    }
}

/// The greatest time together with one that isn't below it.
pub(super) fn greatest_with(greatest: u64, time: Option<u64>) -> u64
    ensures { (times : List ℕ) → IsGreatestTime times greatest → IfSome time (λ t. Each (λ earlier. earlier ≤ t) times)
        → IsGreatestTime (times ++ option_to_list time) result }
{
    match time {
        Some(time) => time,
        None => greatest,
    }
}
