// The laws of what commands come to over a service's disk that tells its content, and of what they leave of it.

ghost use Rattle.std.specs.Prelude.{◌≡◌, ℕ, List, Option, Some, Result};
ghost use Rattle.tw_base.specs.declared.history.thread.Thread.{Thread};
ghost use Rattle.tw_disk.specs.Image.{Image};
ghost use Rattle.tw_outside.specs.Asked.{Asked};
ghost use Rattle.tw_outside.specs.Files.{TellsBytes};
ghost use Rattle.tw_base.specs.declared.history.question.Question.{Question};
ghost use Rattle.tw_text.specs.declared.fault.CommandFault.{CommandFault};
ghost use Rattle.tw_diskcmd.specs.Comes.{TellsContent};
ghost use Rattle.tw_diskcmd.specs.Appending.{AppendComes, StepComes, TellsOfFile};
ghost use Rattle.tw_diskcmd.specs.Asking.{AskComes};
ghost use Rattle.tw_diskcmd.specs.Disks.{IsLeft, KeepsServiceDisk, found_disk};

use tw_disk::Disk;

/// Over a disk that tells its content, all that the adding of these events may come to is one thing:
/// the thread of one step, one refusal, or one reason why nothing is served. Where the inputs tell theirs
/// too, so is it with `append` as a whole, and its file's first bad byte. So is it with questions, of which the
/// bytes are one. A fault of the disk and want of memory are excepted.
pub fn told_laws()
    // Over a disk that tells its content, what `append` comes to once its file was read is one thing: one thread, one
    // refusal with its number, or one reason of status 8 with its slot or page. So each of these comes exactly where it
    // stands, but for a disk fault, want of memory and status 4.
    ensures adding { (image : Image) (events : List (List ℕ)) (time : Option ℕ) (before after : ℕ) (one other : Result Thread CommandFault) → TellsContent one → TellsContent other →
        StepComes (found_disk (Some image) before after) events time one → StepComes (found_disk (Some image) before after) events time other → one ≡ other }
    // Over inputs and a disk that tell what they hold, what `append` comes to is one thing, where neither failed and there
    // was memory: that of its file's events, or the first bad byte of its file.
    ensures appending { (a : Asked) (file bytes : List ℕ) (time : Option ℕ) (image : Image) (before after : ℕ)
        (one other : Result Thread CommandFault) → TellsBytes a.told file bytes → TellsOfFile one → TellsOfFile other →
        AppendComes a (found_disk (Some image) before after) file time one
        → AppendComes a (found_disk (Some image) before after) file time other → one ≡ other }
    // Over a disk that tells its content, what asking a question comes to is one thing: the same bytes, one refusal with its
    // number, or one reason of status 8 with its slot or page. So each of these comes exactly where it stands, but for a disk
    // fault, want of memory and status 4.
    ensures asking { (image : Image) (q : Question) (before after : ℕ) (one other : Result (List ℕ) CommandFault) → TellsContent one → TellsContent other →
        AskComes (found_disk (Some image) before after) q one → AskComes (found_disk (Some image) before after) q other → one ≡ other }
{}

/// A disk that is left as it was keeps the history that it stands for.
pub fn idle_laws<D: Disk>()
    // A run that leaves a disk as it was keeps the history that the disk stood for: it stands for it still, for good,
    // and one at rest is still at rest. So at every other status than 0, 4 and 5, by `unwritten` of `run`.
    ensures kept { (old new : D) → IsLeft D.view old new → KeepsServiceDisk D.view old new }
{}
