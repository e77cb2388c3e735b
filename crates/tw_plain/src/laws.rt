// The laws of printed reports: what an accepted proof's report says by the lines of a file, and that a text has one reading.

ghost use Rattle.std.specs.Prelude.{◌≡◌, ℕ, List, Option, map};
ghost use Rattle.tw_base.specs.declared.history.report.Report.{Report};
ghost use Rattle.tw_chain.specs.declared.proof.Proof.{Proof};
ghost use Rattle.tw_base.specs.format.Formats.{Spells};
ghost use Rattle.tw_chain.specs.Accepting.{IsAccepted, report_of};
ghost use Rattle.tw_chain.specs.Proofs.{proof_layout};
ghost use Rattle.tw_msg.specs.AnchorsFile.{anchor_on, lines};
ghost use Rattle.tw_base.specs.declared.history.thread.Thread.{Thread};
ghost use Rattle.tw_base.specs.kinds.Names.{IsName};
ghost use Rattle.tw_plain.specs.Hashed.{hashed_texts};
ghost use Rattle.tw_plain.specs.Maps.{AreBounds, IsPlainMap, low_map};
ghost use Rattle.tw_plain.specs.Plain.{IsNamedStep, IsReport, IsSoByLines, file_lines};
ghost use Rattle.tw_text.specs.Reports.{report_text};
ghost use Rattle.tw_tmap.specs.declared.map_file.HighFile.{HighFile};
ghost use Rattle.tw_tmap.specs.declared.map_file.LowFile.{LowFile};
ghost use Rattle.tw_tmap.specs.declared.map_verdict.MapVerdict.TheVariants.{Yes};
ghost use Rattle.tw_tmap.specs.Checking.{map_verdict};
ghost use Rattle.tw_tmap.specs.MapFiles.{high_layout, low_layout};
ghost use Rattle.tw_tmap.specs.Texts.{map_text};

use tw_base::Hasher;

/// What the report of an accepted proof says by the lines under which it was accepted: what it claims is so in every list
/// of sound histories that has those of them which are of services that it names, and the threads that it tells as
/// carried, or texts clash.
pub fn plain_laws<H: Hasher>()
    // In every list of sound histories that has each of the lines that is of a service which the report of an accepted proof
    // names, and each thread which it tells as carried, what it claims is so, by its own hops, or two different texts of the
    // histories and of the proof, both of bytes, have one digest.
    ensures held { (bytes : List ℕ) (lines : List Thread) (p : Proof) → Spells proof_layout bytes p → IsAccepted H.dig lines p →
        IsSoByLines H.dig lines (hashed_texts H.dig bytes) (report_of p) }
    // So it is by the lines of a file, given by its bytes.
    ensures so { (bytes file : List ℕ) (p : Proof) → Spells proof_layout bytes p → IsAccepted H.dig (map anchor_on (lines file)) p →
        IsSoByLines H.dig (file_lines file) (hashed_texts H.dig bytes) (report_of p) }
    // The report of a proof that bytes spell is one that a text can tell: its names are names, its numbers have 64 bits, and
    // what it tells in hexadecimal digits is bytes.
    ensures readable { (bytes : List ℕ) (p : Proof) → Spells proof_layout bytes p → IsReport (report_of p) }
{}

/// What the bounds of accepted map files say by the lines under which these were accepted.
pub fn plain_map_laws<H: Hasher>()
    // What is printed of map files that bytes spell, and that are accepted under the lines, tells bounds of the step and the peer
    // that the low file names in its first bytes, which a text can tell. In every list of sound histories that has each of the
    // lines that is of the service or of the peer they are those of its histories; or two different texts of the histories and of
    // the files, both of bytes, have one digest.
    ensures so { (low_bytes high_bytes file : List ℕ) (low : LowFile) (high : HighFile) (l : ℕ) (h : Option ℕ) (upto : ℕ) →
        Spells low_layout low_bytes low → Spells high_layout high_bytes high →
        map_verdict H.dig (map anchor_on (lines file)) low high ≡ Yes l h upto → IsPlainMap H.dig low_bytes high_bytes (file_lines file) (map_text (Yes l h upto)) }
{}

/// What is printed has one reading.
pub fn reading_laws()
    // No two reports that a text can tell have one text.
    ensures once { (one other : Report) → IsReport one → IsReport other → report_text one ≡ report_text other → one ≡ other }
    // Nor have bounds that aren't the same.
    ensures map_once { (low below : ℕ) (high above : Option ℕ) (upto last : ℕ) → AreBounds low high upto → AreBounds below above last →
        map_text (Yes low high upto) ≡ map_text (Yes below above last) → (low ≡ below) × (high ≡ above) × (upto ≡ last) }
    // The first bytes of a low map file name one service, one step and one peer.
    ensures front_once { (service other : List ℕ) (step next : ℕ) (peer last rest more : List ℕ) → IsNamedStep service step →
        IsNamedStep other next → IsName peer → IsName last → low_map service step peer rest ≡ low_map other next last more →
        (service ≡ other) × (step ≡ next) × (peer ≡ last) }
{}
