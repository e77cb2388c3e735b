// Why a text isn't taken as a line of a script.

ghost use Rattle.std.specs.Prelude.{◌≡◌};
ghost use Rattle.tw_script.specs.declared.stop.Stop.TheVariants.{NoMemory as WantedMemory};

use tw_base::NoMemory;

/// Why a text isn't taken as a line of a script.
#[derive(Clone, Copy, Debug, Drop)]
pub enum Stop {
    /// It has no form, or its line may not follow those before it.
    NotAllowed,
    /// There was no memory for its line.
    NoMemory,
}

impl From<NoMemory> for Stop {
    ghost from_gives = { λ _ stop. stop ≡ WantedMemory };

    fn from(_refused: NoMemory) -> Self {
        Stop::NoMemory
    }
}
