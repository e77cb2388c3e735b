// Reading the file of an audit's proof, which is judged piece by piece and kept; tw_filecmd/src/feeding.rt reads one of which
// nothing is kept.

ghost use Rattle.std.specs.Prelude.{◌≡◌, ◌≤◌, ◌↔◌, ◌+◌, ℕ, List, [], false, length, vec_len, Ok, Err, IfOk, OnOk};
ghost use Rattle.sha2.specs.Sha256.{sha256};
ghost use Rattle.tw_base.specs.declared.history.thread.Thread.{Thread as Anchor};
ghost use Rattle.tw_base.specs.kinds.Faults.{Rose};
ghost use Rattle.tw_chain.specs.Reasons.{IsVerdict};
ghost use Rattle.tw_outside.specs.Files.{IsThere, TellsBytes};
ghost use Rattle.tw_pieces.specs.Feeding.{IsSpent};
ghost use Rattle.tw_verifier.specs.Verifying.{IsFed};
ghost use Rattle.tw_reachcmd.specs.Fronts.{IsFarFront, IsFedOf};

use std::alloc::Global;
use tw_base::{InputFault, NoMemory, Sha, Thread};
use tw_chain::Verdict;
use tw_outside::{Inputs, PIECE};
use tw_verifier::Verifier;

/// What was read of a proof file, and the verdict on it, which isn't strict.
#[derive(Drop)]
pub(crate) struct Judged {
    pub(crate) bytes: Vec<u8>,
    pub(crate) verdict: Verdict,
}

/// A verifier, and the first bytes of a file that it was fed.
#[derive(Drop)]
struct Fed {
    verifier: Verifier<Sha>,
    bytes: Vec<u8>,
}

/// Reads the named proof file, all of it or up to the piece of `PIECE` bytes in which its first bad byte
/// stands, and judges it under these anchors.
pub(crate) fn judge_front<I: Inputs>(
    alloc: Global,
    inputs: &mut I,
    proof: &str,
    anchors: &[Thread],
) -> Result<Judged, InputFault>
    requires { I.may_ask inputs.old proof.now }
    ensures kept { I.told inputs.new ≡ I.told inputs.old }
    ensures same_names { (other : List ℕ) → I.may_ask inputs.new other ↔ I.may_ask inputs.old other }
    ensures later { I.faults inputs.old ≤ I.faults inputs.new }
    ensures failed { result ≡ Err InputFault.Failed → Rose (I.faults inputs.old) (I.faults inputs.new) }
    ensures there { OnOk result (IsThere (I.told inputs.old) proof.now) }
    ensures front { IfOk result (λ judged. IsFarFront (I.told inputs.old) proof.now judged.bytes.items) }
    ensures verdict { IfOk result (λ judged. IsVerdict sha256 anchors.now false judged.bytes.items judged.verdict) }
{
    let Fed { verifier, bytes } = feed_front(alloc, inputs, proof, anchors)?;
    let verdict = verifier.finish()?;
    Ok(Judged { bytes, verdict })
}

/// Feeds a new verifier the named file, all of it or up to the piece in which its first bad byte stands.
fn feed_front<I: Inputs>(
    alloc: Global,
    inputs: &mut I,
    proof: &str,
    anchors: &[Thread],
) -> Result<Fed, InputFault>
    requires { I.may_ask inputs.old proof.now }
    ensures kept { I.told inputs.new ≡ I.told inputs.old }
    ensures same_names { (other : List ℕ) → I.may_ask inputs.new other ↔ I.may_ask inputs.old other }
    ensures later { I.faults inputs.old ≤ I.faults inputs.new }
    ensures failed { result ≡ Err InputFault.Failed → Rose (I.faults inputs.old) (I.faults inputs.new) }
    ensures there { OnOk result (IsThere (I.told inputs.old) proof.now) }
    ensures front { IfOk result (λ fed. IsFarFront (I.told inputs.old) proof.now fed.bytes.items) }
    ensures fed { IfOk result (λ fed. IsFed sha256 anchors.now false fed.verifier fed.bytes.items) }
{
    let mut fed = Fed::begin(alloc, anchors)?;
    loop {
        match fed.feed(inputs, proof) {
            Ok(came) => {
                if came == 0 || fed.verifier.broken() {
                    return Ok(fed);
                }
            }
            // Not by `?`: a verifier that goes out of scope is looked at part by part, and proved slowly.
            Err(fault) => {
                drop(fed);
                return Err(fault);
            }
        }
    }
}

impl Fed {
    /// A new verifier under these anchors, which isn't strict, and no bytes.
    fn begin(alloc: Global, anchors: &[Thread]) -> Result<Self, NoMemory>
        ensures verifier { IfOk result (λ fed. IsFed sha256 anchors.now false fed.verifier [] × (IsSpent fed.verifier.fed → ⊥)) }
        ensures bytes { IfOk result (λ fed. fed.bytes.items ≡ []) }
    {
        let verifier = Verifier::<Sha>::new(alloc, anchors, false)?;
        let bytes = Vec::new(alloc);
        Ok(Fed { verifier, bytes })
    }

    /// Feeds the verifier what one read brings of the named file behind the bytes so far, up to the end of
    /// the piece, and answers how many bytes came: none at the end of the file alone.
    fn feed<I: Inputs>(&mut self, inputs: &mut I, proof: &str) -> Result<usize, InputFault>
        requires { I.may_ask inputs.old proof.now }
        ensures kept { I.told inputs.new ≡ I.told inputs.old }
        ensures same_names { (other : List ℕ) → I.may_ask inputs.new other ↔ I.may_ask inputs.old other }
        ensures later { I.faults inputs.old ≤ I.faults inputs.new }
        ensures failed { result ≡ Err InputFault.Failed → Rose (I.faults inputs.old) (I.faults inputs.new) }
        ensures there { OnOk result (IsThere (I.told inputs.old) proof.now) }
        ensures count { IfOk result (λ came. vec_len self.new.bytes ≡ vec_len self.old.bytes + came) }
        ensures fed { OnOk result ((anchors : List Anchor) → IsFedOf (I.told inputs.old) proof.now anchors self.old.verifier self.old.bytes.items →
            IsFedOf (I.told inputs.old) proof.now anchors self.new.verifier self.new.bytes.items) }
        ensures end { result ≡ Ok 0 → (bytes : List ℕ) → TellsBytes (I.told inputs.old) proof.now bytes → length bytes ≤ vec_len self.old.bytes }
    {
        let mut piece = [0u8; PIECE];
        let at = self.bytes.len();
        let room = PIECE - at % PIECE;
        let came = inputs.read(proof, at as u64, &mut piece[..room])?;
        self.verifier.feed(&piece[..came])?;
        self.bytes.extend_from_slice(&piece[..came])?;
        Ok(came)
    }
}
