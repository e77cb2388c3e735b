// The limits of commands: how many histories, files of receipts, proofs and generated steps one may have.

ghost use Rattle.std.specs.Prelude.{◌≡◌};

/// The most histories that one audit compares with a proof.
pub const MOST_HISTORIES: usize = 64;

/// The most files of receipts that one atlas is made of.
pub const MOST_RECEIPT_FILES: usize = 64;

/// The most proofs by which one history is taken over.
pub const MOST_ADOPTING: usize = 64;

/// The most steps that one generated schedule has; tw_generate plays no more rounds, either.
pub const MOST_GENERATED: u64 = 10_000;

/// The limits of commands, by number.
pub fn limit_laws()
    // `MOST_HISTORIES`, the most histories of one audit, is 64.
    ensures histories { MOST_HISTORIES ≡ 64 }
    // `MOST_RECEIPT_FILES`, the most files of receipts of one atlas, is 64.
    ensures receipt_files { MOST_RECEIPT_FILES ≡ 64 }
    // `MOST_ADOPTING`, the most proofs by which one history is taken over, is 64.
    ensures adopting { MOST_ADOPTING ≡ 64 }
    // `MOST_GENERATED`, the most steps of one generated schedule, is 10,000.
    ensures generated { MOST_GENERATED ≡ 10000 }
{}
