// The verifier, which is fed a proof in pieces, or whole by `verify`; each segment is looked at in `judging.rt`.

ghost use Rattle.std.specs.Prelude.{◌≡◌, ◌↔◌, IsTrue, ℕ, List, [], ◌++◌, Bool, IfOk, OnOk, OnErr};
ghost use Rattle.tw_base.specs.declared.history.thread.Thread.{Thread as Anchor};
ghost use Rattle.tw_pieces.specs.Feeding.{IsSpent, is_reader_broken};
ghost use Rattle.tw_base.specs.format.Formats.{IsFront};
ghost use Rattle.tw_chain.specs.Binding.{BindsHistories};
ghost use Rattle.tw_chain.specs.Proofs.{proof_layout};
ghost use Rattle.tw_chain.specs.Reasons.{IsVerdict};
ghost use Rattle.tw_verifier.specs.Verifying.{IsFed};

use crate::stage::Stage;
use crate::whole::judge_proof;
use std::alloc::Global;
use std::marker::PhantomData;
use tw_base::{Hasher, NoMemory, ReadFault, Reason, Thread, Threads};
use tw_chain::{Verdict, read_proof};
use tw_pieces::Fed;

/// What was taken of a proof, and the anchors under which it is judged.
#[derive(Drop)]
pub struct Judging<H> {
    pub(crate) anchors: Threads,
    pub(crate) stage: Stage,
    pub(crate) hasher: PhantomData<H>,
}

/// A verifier that is fed the bytes of a proof in pieces, cut anywhere. It holds the part of the proof at hand, and what the report
/// needs.
#[derive(Drop)]
pub struct Verifier<H> {
    pub(crate) alloc: Global,
    pub(crate) strict: bool,
    pub(crate) fed: Fed<Judging<H>>,
}

impl<H: Hasher> Verifier<H> {
    /// A verifier under these anchors that was fed no piece yet; the strict form refuses a proof that carries threads.
    pub fn new(alloc: Global, anchors: &[Thread], strict: bool) -> Result<Self, NoMemory>
        // A new verifier was fed nothing, and memory was left for it.
        ensures fed { IfOk result (λ v. IsFed H.dig anchors.now strict v [] × (IsSpent v.fed → ⊥)) }
    {
        let judging = Judging {
            anchors: Threads::from_vec(Vec::from_slice(alloc, anchors)?),
            stage: Stage::Begun,
            hasher: PhantomData,
        };
        Ok(Verifier {
            alloc,
            strict,
            fed: Fed::begin(alloc, judging),
        })
    }

    /// A piece more. Once no memory was left for a piece, the answer is `NoMemory` for ever.
    pub fn feed(&mut self, piece: &[u8]) -> Result<(), NoMemory>
        // The verifier was fed what it was fed before, and then the piece.
        ensures fed { (anchors : List Anchor) (strict : Bool) (pieces : List ℕ) → IsFed H.dig anchors strict self.old pieces →
            IsFed H.dig anchors strict self.new (pieces ++ piece.now) }
        // Where no memory was left, this is known from now on, and of whether the pieces break what was known before.
        ensures spends { OnErr result (IsSpent self.new.fed × (is_reader_broken self.new.fed ≡ is_reader_broken self.old.fed)) }
        // Else memory was left for each piece so far.
        ensures unspent { OnOk result (IsSpent self.new.fed → ⊥) }
        // Behind a piece for which no memory was left none is taken.
        ensures spent { IsSpent self.old.fed → OnOk result ⊥ }
        // Pieces behind a bad byte change nothing.
        ensures still { IsTrue (is_reader_broken self.old.fed) → self.new.fed ≡ self.old.fed }
    {
        self.fed.feed(self.alloc, piece)
    }

    /// Whether no proof goes on behind the pieces.
    pub fn broken(&self) -> bool
        // It is what the verifier knows of it.
        ensures told { result ≡ is_reader_broken self.now.fed }
        // While memory was left for each piece, it is so exactly where the pieces are no front of a proof.
        ensures exact { (anchors : List Anchor) (strict : Bool) (pieces : List ℕ) → IsFed H.dig anchors strict self.now pieces →
            (IsSpent self.now.fed → ⊥) → IsTrue result ↔ (IsFront proof_layout pieces → ⊥) }
    {
        self.fed.is_broken()
    }

    /// The verdict on the pieces, joined, now that no piece more comes. `NoMemory` where no memory was left for one of them.
    pub fn finish(self) -> Result<Verdict, NoMemory>
        // The verdict on a proof that came in pieces is that on all of its bytes, wherever they were cut.
        ensures verdict { (anchors : List Anchor) (strict : Bool) (pieces : List ℕ) → IsFed H.dig anchors strict self pieces →
            IfOk result (IsVerdict H.dig anchors strict pieces) }
        // Where that verdict is `Yes`, it binds histories as that of `verify` does.
        ensures binds { (anchors : List Anchor) (strict : Bool) (pieces : List ℕ) → IsFed H.dig anchors strict self pieces →
            IfOk result (BindsHistories H.dig anchors pieces) }
        // Where no memory was left for a piece there is no verdict.
        ensures spent { IsSpent self.fed → IfOk result (λ verdict. ⊥) }
    {
        match self.fed.finish() {
            Ok(judgement) => Ok(judgement.verdict(self.strict)),
            Err(ReadFault::Malformed { place }) => Ok(Verdict::No(Reason::Malformed { place })),
            Err(ReadFault::NoMemory) => Err(NoMemory),
        }
    }
}

/// The verdict on the bytes of a proof under the anchors: Yes exactly where the bytes spell a proof that is accepted and, in the strict
/// form, carries no thread, with its report; else No with the lowest reason that stands. Each text is hashed once. The proof is read and
/// held whole.
///
/// Where it is Yes, in every family of sound histories that has the held threads the report's claim holds, by the report's own hops, or
/// two different texts of the histories and of the proof, both of bytes, have one digest.
pub fn verify<H: Hasher>(
    alloc: Global,
    bytes: &[u8],
    anchors: &[Thread],
    strict: bool,
) -> Result<Verdict, NoMemory>
    // The verdict on bytes under a list of anchors is `Yes` exactly where they spell a proof that is accepted and, in the strict form,
    // carries no thread, with the report of that proof; else `No` with the lowest reason that stands.
    ensures verdict { IfOk result (IsVerdict H.dig anchors.now strict bytes.now) }
    // Where the verdict is `Yes`, the report's claim holds by the report's own hops in every list of sound histories that has the anchors
    // held of those that the proof names and the threads that it carries, and where it has no hops the times rise; or two different texts
    // of these histories and of the proof, both of bytes, have one digest.
    ensures binds { IfOk result (BindsHistories H.dig anchors.now bytes.now) }
{
    match read_proof(alloc, bytes) {
        Ok(proof) => {
            let judgement = judge_proof::<H>(alloc, proof, anchors)?;
            Ok(judgement.verdict(strict))
        }
        Err(ReadFault::Malformed { place }) => Ok(Verdict::No(Reason::Malformed { place })),
        Err(ReadFault::NoMemory) => Err(NoMemory),
    }
}
