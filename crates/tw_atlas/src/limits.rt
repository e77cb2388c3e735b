// The limit of an atlas: how many receipts its files may have.

ghost use Rattle.std.specs.Prelude.{◌≡◌};

/// The most receipts of an atlas, over all its files, equal ones too; and so the most different hops
/// that are planned.
pub const MOST_RECEIPTS: u64 = 4096;

/// The limit of an atlas, by number.
pub fn limit_laws()
    // `MOST_RECEIPTS`, the most receipts of an atlas, is 4,096.
    ensures receipts { MOST_RECEIPTS ≡ 4096 }
{}
