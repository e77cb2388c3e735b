// What a reader answers of one segment of a word (`Attempt`, `Segments`), and the loop that takes one after another.

ghost use Rattle.std.specs.Prelude.{◌≡◌, ℕ, ◌+◌, ◌<◌, ◌≤◌, ◌^◌, List, [], ◌++◌, length, drop, IfOk};
ghost use Rattle.tw_base.specs.format.Formats.{Format};
ghost use Rattle.tw_pieces.specs.Resuming.{Attempts, EndsAsFormat, GoesInPieces, Misses, StandsBehind, StaysFront};

use crate::resumed::Resumed;
use std::alloc::Global;
use tw_base::{Bytes, NoMemory, ReadFault};

/// What was found in the bytes that are held of a segment.
#[derive(Drop)]
pub enum Attempt<S> {
    /// The segment ended: what follows it, and the number of its bytes.
    Ended { next: S, size: usize },
    /// The bytes are a front of the segment, which can neither end nor break before it has `until`
    /// bytes.
    Front { same: S, until: usize },
    /// At this place of the bytes no word goes on.
    Broken { place: usize },
}

/// What was taken of a word so far, which says what may follow.
pub trait Segments: Drop + Sized {
    type Whole: Drop;

    ghost rest: { Self → Format Self.Whole };

    /// Looks at the bytes that are held of the segment at hand.
    fn attempt(self, alloc: Global, held: &[u8]) -> Result<Attempt<Self>, NoMemory>
        ensures { Attempts rest self held.now result };

    /// The value, where nothing more follows.
    fn whole(self) -> Option<Self::Whole>
        ensures { EndsAsFormat (rest self) result };
}

/// What was found where reading the bytes that are held of a segment failed.
pub fn missed<S: Drop>(same: S, held: &[u8], fault: ReadFault) -> Result<Attempt<S>, NoMemory>
    ensures { Misses same held.now fault result }
{
    match fault {
        ReadFault::NoMemory => Err(NoMemory),
        ReadFault::Malformed { place } if place < held.len() as u64 => Ok(Attempt::Broken {
            place: place as usize,
        }),
        ReadFault::Malformed { .. } => Ok(Attempt::Front { same, until: 0 }),
    }
}

/// The bytes from a place on.
fn from_place(alloc: Global, held: Bytes, at: usize) -> Result<Bytes, NoMemory>
    requires { at ≤ length held }
    ensures { IfOk result (λ rest. rest ≡ drop at held) }
{
    if at == 0 {
        return Ok(held);
    }
    Bytes::from_slice(alloc, &held.as_slice()[at..])
}

/// Takes segment after segment of what is held.
pub(crate) fn settle<S: Segments>(
    alloc: Global,
    state: S,
    held: Bytes,
    taken: u64,
) -> Result<Resumed<S>, ReadFault>
    requires { taken + length held < 2 ^ 64 }
    ensures { (whole : Format S.Whole) (before : List ℕ) → taken ≡ length before → StandsBehind whole before (S.rest state) → GoesInPieces S.rest whole (before ++ held) result }
{
    let mut state = state;
    let mut at = 0;
    loop {
        match state.attempt(alloc, &held.as_slice()[at..])? {
            Attempt::Ended { next, size } => {
                state = next;
                at += size;
            }
            Attempt::Front { same, until } => {
                let held = from_place(alloc, held, at)?;
                return Ok(Resumed {
                    state: same,
                    held,
                    taken: taken + at as u64,
                    until,
                });
            }
            Attempt::Broken { place } => {
                return Err(ReadFault::Malformed {
                    place: taken + (at + place) as u64,
                });
            }
        }
    }
}
