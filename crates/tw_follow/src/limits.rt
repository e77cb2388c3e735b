// The size of a follower's root record; that of a service's is in tw_answers.

ghost use Rattle.std.specs.Prelude.{◌≡◌};

/// The bytes of the root record of a follower: the 56 of a thread, and the 8 of the number of its page.
pub const ROOT_BYTES: usize = 64;

/// The size of the root record of a follower, by number.
pub fn limit_laws()
    // `ROOT_BYTES`, the bytes of the root record of a follower, is 64.
    ensures root { ROOT_BYTES ≡ 64 }
{}
