// Feeding a verifier the file of a proof, piece by piece, none of which is kept; tw_reachcmd/src/fronts.rt keeps them.

ghost use Rattle.std.specs.Prelude.{◌≡◌, ◌≤◌, ◌+◌, ◌↔◌, ℕ, List, Bool, length, Ok, Err, IfOk, OnOk};
ghost use Rattle.tw_base.specs.kinds.Faults.{Rose};
ghost use Rattle.tw_base.specs.declared.history.thread.Thread.{Thread as Anchor};
ghost use Rattle.tw_outside.specs.Files.{IsThere, TellsBytes};
ghost use Rattle.tw_filecmd.specs.Feeding.{IsFedFar, IsFedFront};

use std::alloc::Global;
use tw_base::{NoMemory, Sha, Thread};
use tw_outside::{InputFault, Inputs, PIECE};
use tw_verifier::Verifier;

/// A verifier under these anchors that was fed the named file: all of it, or a front at which no proof
/// goes on. Nothing is read behind the piece of `PIECE` bytes in which the first bad byte stands.
pub(crate) fn feed_file<I: Inputs>(
    alloc: Global,
    inputs: &mut I,
    proof: &str,
    anchors: &[Thread],
    strict: bool,
) -> Result<Verifier<Sha>, InputFault>
    requires { I.may_ask inputs.old proof.now }
    ensures later { I.faults inputs.old ≤ I.faults inputs.new }
    ensures failed { result ≡ Err InputFault.Failed → Rose (I.faults inputs.old) (I.faults inputs.new) }
    ensures there { OnOk result (IsThere (I.told inputs.old) proof.now) }
    ensures fed { IfOk result (IsFedFar (I.told inputs.old) proof.now anchors.now strict) }
{
    let mut verifier = Verifier::<Sha>::new(alloc, anchors, strict)?;
    let mut at = 0;
    loop {
        match feed_piece(inputs, proof, at, &mut verifier) {
            Ok(came) => {
                if came == 0 || verifier.broken() {
                    return Ok(verifier);
                }
                at += came;
            }
            // Not by `?`: a verifier that goes out of scope is looked at part by part, and proved slowly.
            Err(fault) => {
                drop(verifier);
                return Err(fault);
            }
        }
    }
}

/// Feeds the verifier what one read brings of the named file behind its first `at` bytes, up to the end
/// of the piece, and answers how many bytes came: none at the end of the file alone.
fn feed_piece<I: Inputs>(
    inputs: &mut I,
    proof: &str,
    at: usize,
    verifier: &mut Verifier<Sha>,
) -> Result<usize, InputFault>
    requires { I.may_ask inputs.old proof.now }
    ensures kept { I.told inputs.new ≡ I.told inputs.old }
    ensures same_names { (other : List ℕ) → I.may_ask inputs.new other ↔ I.may_ask inputs.old other }
    ensures later { I.faults inputs.old ≤ I.faults inputs.new }
    ensures failed { result ≡ Err InputFault.Failed → Rose (I.faults inputs.old) (I.faults inputs.new) }
    ensures there { OnOk result (IsThere (I.told inputs.old) proof.now) }
    ensures within { IfOk result (λ came. came ≤ PIECE) }
    ensures fed { IfOk result (λ came. (anchors : List Anchor) (strict : Bool) →
        IsFedFront (I.told inputs.old) proof.now anchors strict verifier.old at → IsFedFront (I.told inputs.old) proof.now anchors strict verifier.new (at + came)) }
    ensures end { result ≡ Ok 0 → (bytes : List ℕ) → TellsBytes (I.told inputs.old) proof.now bytes → length bytes ≤ at }
{
    let mut piece = [0u8; PIECE];
    let room = PIECE - at % PIECE;
    let came = inputs.read(proof, at as u64, &mut piece[..room])?;
    if came == 0 {
        return Ok(0);
    }
    verifier.feed(&piece[..came])?;
    Ok(came)
}
