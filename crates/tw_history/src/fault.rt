// Why a history isn't read, isn't sound or has no file, and why none of its events is shown.

ghost use Rattle.std.specs.Prelude.{◌≡◌};
ghost use Rattle.tw_history.specs.declared.fault.HistoryFault.TheVariants.{NoMemory as WantedMemory};

use tw_base::NoMemory;

/// Why a history isn't read, isn't sound, or has no file.
#[derive(Clone, Copy, PartialEq, Eq, Debug, Drop)]
pub enum HistoryFault {
    /// The bytes are no history file. The place is that of the first byte at which none goes on,
    /// counted from 0, or the number of the bytes where they end too early.
    Malformed { place: u64 },
    /// The history isn't sound: the step, counted from 1, is the first that breaks a rule, and the
    /// rule, 1 to 7, is the first that it breaks.
    Unsound { step: u64, rule: u8 },
    /// The file has, or would have, so many bytes, which are more than 67,108,864.
    TooLong { bytes: u64 },
    /// There was no memory for what the call needed.
    NoMemory,
}

impl From<NoMemory> for HistoryFault {
    ghost from_gives = { λ _ fault. fault ≡ WantedMemory };

    fn from(_refused: NoMemory) -> Self {
        HistoryFault::NoMemory
    }
}

/// Why an event isn't shown.
#[derive(Clone, Copy, PartialEq, Eq, Debug, Drop)]
pub enum ShowFault {
    /// The history has no such step; its last one is this, 0 where it has none.
    NoStep { last: u64 },
    /// The step has no event of that index; it has so many.
    NoEvent { count: u32 },
    /// There was no memory for what the call needed.
    NoMemory,
}
