// What a reader holds of a word that came in pieces so far, as long as they are the front of one.

ghost use Rattle.std.specs.Prelude.{◌≡◌, ℕ, ◌+◌, ◌<◌, ◌^◌, List, [], ◌++◌, length};

use crate::segments::{Segments, settle};
use std::alloc::Global;
use tw_base::{Bytes, ReadFault};

/// A word that came in pieces so far: what was taken of it, the bytes of the segment at hand, and how
/// many were taken before. All of them are fewer than 2^64.
#[derive(Drop)]
pub struct Resumed<S> {
    pub(crate) state: S,
    pub(crate) held: Bytes,
    pub(crate) taken: u64,
    pub(crate) until: usize,
    ghost counted: { taken + length held < 2 ^ 64 },
}

impl<S: Segments> Resumed<S> {
    ghost use Rattle.tw_base.specs.format.Formats.{Format, ReadsAs};
    ghost use Rattle.tw_pieces.specs.Resuming.{GoesInPieces, IsSoFar, StaysFront};

    /// No bytes yet.
    pub fn begin(alloc: Global, state: S) -> Self
        ensures { StaysFront (S.rest state) [] 0 → IsSoFar S.rest (S.rest state) result [] }
    {
        Resumed {
            state,
            held: Bytes::new(alloc),
            taken: 0,
            until: 0,
        }
    }

    /// A piece more. Malformed exactly where the pieces so far are no front of a word, with the place
    /// of the first byte at which none goes on. The bytes held of a segment are looked at again only
    /// where it may end or break with the piece. The answer is `NoMemory` also where the pieces so far
    /// have 2^64 bytes or more, too many for their count.
    pub fn feed(self, alloc: Global, piece: &[u8]) -> Result<Self, ReadFault>
        // A piece is refused exactly where all that came so far is no front of a word, with the place.
        ensures { (whole : Format S.Whole) (pieces : List ℕ) → IsSoFar S.rest whole self pieces → GoesInPieces S.rest whole (pieces ++ piece.now) result }
    {
        let Resumed {
            state,
            mut held,
            taken,
            until,
        } = self;
        held.extend_from_slice(piece)?;
        if taken.checked_add(held.len() as u64).is_none() {
            return Err(ReadFault::NoMemory);
        }
        if held.len() < until {
            return Ok(Resumed {
                state,
                held,
                taken,
                until,
            });
        }
        settle(alloc, state, held, taken)
    }

    /// The value of the word, now that no piece more comes. Malformed where the pieces are no word.
    pub fn finish(self) -> Result<S::Whole, ReadFault>
        // At the end the answer is that of reading all pieces as one.
        ensures { (whole : Format S.Whole) (pieces : List ℕ) → IsSoFar S.rest whole self pieces → ReadsAs (λ x. x) whole pieces result }
    {
        let place = self.taken + self.held.len() as u64;
        if self.held.len() > 0 {
            return Err(ReadFault::Malformed { place });
        }
        match self.state.whole() {
            Some(value) => Ok(value),
            None => Err(ReadFault::Malformed { place }),
        }
    }
}
