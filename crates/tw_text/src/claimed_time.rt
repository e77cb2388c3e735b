// The time that a step claims, as a word gives it.

ghost use Rattle.std.specs.Prelude.{◌≡◌, ◌≤◌};
ghost use Rattle.tw_base.specs.declared.kinds.limits.TheConstants.{LAST_TIME};

/// A time in seconds, at most 2^40 - 1, that the maker of a step claims. To contracts it is the number.
#[derive(Clone, Copy, Drop, Debug)]
pub struct ClaimedTime {
    seconds: u64,
}

impl std::marker::Model for ClaimedTime {
    ghost use Rattle.std.specs.Prelude.{ℕ, ◌≤◌};
    ghost use Rattle.tw_base.specs.declared.kinds.limits.TheConstants.{LAST_TIME};

    ghost Value = { ℕ };

    ghost view = { λ time. time.seconds };

    ghost invariant = { λ time. time.seconds ≤ LAST_TIME };

    ghost inverse = { λ seconds. record { seconds = seconds } };
}

impl ClaimedTime {
    /// The time of so many seconds.
    pub fn new(seconds: u64) -> ClaimedTime
        requires { seconds ≤ LAST_TIME }
        ensures { result ≡ seconds }
    {
        ClaimedTime { seconds }
    }

    /// The seconds.
    pub fn seconds(self) -> u64
        // The seconds are those of the time.
        ensures value { result ≡ self }
        // A time has at most 2^40 - 1 seconds.
        ensures limit { result ≤ LAST_TIME }
    {
        self.seconds
    }
}
