// Answers without a value: what failed, and why.

use std::alloc::{AllocError, AllocFailed};

/// A device, an input or a sink failed; its count of faults rose in that call.
#[derive(Clone, Copy, PartialEq, Eq, Debug, Drop)]
pub struct Failed;

/// There was no memory for what the call needed.
#[derive(Clone, Copy, PartialEq, Eq, Debug, Drop)]
pub struct NoMemory;

impl From<AllocError> for NoMemory {
    ghost use Rattle.std.specs.Prelude.{⊤};

    ghost from_gives = { λ _ _. ⊤ };

    fn from(_refused: AllocError) -> Self {
        NoMemory
    }
}

impl<T: Drop> From<AllocFailed<T>> for NoMemory {
    ghost use Rattle.std.specs.Prelude.{⊤};

    ghost from_gives = { λ _ _. ⊤ };

    fn from(_refused: AllocFailed<T>) -> Self {
        NoMemory
    }
}

/// Why bytes could not be read.
#[derive(Clone, Copy, PartialEq, Eq, Debug, Drop)]
pub enum ReadFault {
    /// The bytes are no word of the format. The place, counted from 0, is that of the first byte at
    /// which no word of the format goes on; where the bytes end too early, it is their length.
    Malformed { place: u64 },
    /// There was no memory for what the call needed.
    NoMemory,
}

impl From<NoMemory> for ReadFault {
    ghost use Rattle.std.specs.Prelude.{◌≡◌};
    ghost use Rattle.tw_base.specs.declared.kinds.failure.ReadFault.TheVariants.{NoMemory as WantedMemory};

    ghost from_gives = { λ _ fault. fault ≡ WantedMemory };

    fn from(_none: NoMemory) -> Self {
        ReadFault::NoMemory
    }
}

impl From<AllocError> for ReadFault {
    ghost use Rattle.std.specs.Prelude.{◌≡◌};
    ghost use Rattle.tw_base.specs.declared.kinds.failure.ReadFault.TheVariants.{NoMemory as WantedMemory};

    ghost from_gives = { λ _ fault. fault ≡ WantedMemory };

    fn from(_refused: AllocError) -> Self {
        ReadFault::NoMemory
    }
}

impl<T: Drop> From<AllocFailed<T>> for ReadFault {
    ghost use Rattle.std.specs.Prelude.{◌≡◌};
    ghost use Rattle.tw_base.specs.declared.kinds.failure.ReadFault.TheVariants.{NoMemory as WantedMemory};

    ghost from_gives = { λ _ fault. fault ≡ WantedMemory };

    fn from(_refused: AllocFailed<T>) -> Self {
        ReadFault::NoMemory
    }
}

/// Why an input wasn't read.
#[derive(Clone, Copy, PartialEq, Eq, Debug, Drop)]
pub enum InputFault {
    /// The inputs failed: their count of faults rose.
    Failed,
    /// There was no memory for the bytes.
    NoMemory,
}

impl From<Failed> for InputFault {
    ghost use Rattle.std.specs.Prelude.{◌≡◌};
    ghost use Rattle.tw_base.specs.declared.kinds.failure.InputFault.TheVariants.{Failed as InputsFailed};

    ghost from_gives = { λ _ fault. fault ≡ InputsFailed };

    fn from(_: Failed) -> Self {
        InputFault::Failed
    }
}

impl From<AllocError> for InputFault {
    ghost use Rattle.std.specs.Prelude.{◌≡◌};
    ghost use Rattle.tw_base.specs.declared.kinds.failure.InputFault.TheVariants.{NoMemory as WantedMemory};

    ghost from_gives = { λ _ fault. fault ≡ WantedMemory };

    fn from(_: AllocError) -> Self {
        InputFault::NoMemory
    }
}

impl From<NoMemory> for InputFault {
    ghost use Rattle.std.specs.Prelude.{◌≡◌};
    ghost use Rattle.tw_base.specs.declared.kinds.failure.InputFault.TheVariants.{NoMemory as WantedMemory};

    ghost from_gives = { λ _ fault. fault ≡ WantedMemory };

    fn from(_: NoMemory) -> Self {
        InputFault::NoMemory
    }
}
