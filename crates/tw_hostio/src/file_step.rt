// What a file in memory keeps of its calls.

/// A call of a file in memory that took effect.
#[derive(Drop)]
pub enum FileStep {
    /// These bytes were written at this place.
    Wrote { at: u64, bytes: Vec<u8> },
    /// What was written was made stable.
    Synced,
}
