// The limits of scripts.

ghost use Rattle.std.specs.Prelude.{◌≡◌};

/// The most bytes of a script: 1 MiB.
pub const MOST_SCRIPT_BYTES: usize = 1_048_576;

/// The most names of a script, of services and of hostile ones together.
pub const MOST_SCRIPT_NAMES: usize = 64;

/// The limits of scripts, by number.
pub fn limit_laws()
    // `MOST_SCRIPT_BYTES`, the most bytes of a script, is 1,048,576.
    ensures bytes { MOST_SCRIPT_BYTES ≡ 1048576 }
    // `MOST_SCRIPT_NAMES`, the most names of a script, is 64.
    ensures names { MOST_SCRIPT_NAMES ≡ 64 }
{}
