// What one file of pages is, as a program asks the system of it; `host_file.rt` has the system's, `memory_file.rt` one in memory.
ghost use Rattle.std.specs.Prelude.{◌≡◌, ◌<◌, ◌≤◌, ℕ, List, length, take, Some, None, Ok, Err, IfOk, IfSome, OnOk, OnErr, MatchOption};
ghost use Rattle.std.specs.Option.{option_map, IsSomeAnd};
ghost use Rattle.tw_base.specs.kinds.Faults.{HasCause};
ghost use Rattle.tw_hostio.specs.FileBytes.{put_bytes, TornBytes};
ghost use Rattle.tw_hostio.specs.PageFile.{FileView, MayRead, MayWrite, OnlyBytes, FollowsByWrite, KeepsOutcomes, FileTimeGoesOn, IsSameFile, IsAbsent};
ghost use Rattle.tw_outside.specs.Files.{Came};

use crate::call_fault::CallFault;
use crate::file_stage::FileStage;

/// One file, as a program asks the system of it. Each method is one call, which may be interrupted, may transfer a part, and may fail.
///
/// A write may leave any bytes in its place until a good `sync`, and after a crash. A file that can't say what it holds, such as one of
/// the system, tells no bytes and no outcome of a crash; its calls keep what is said of stages.
pub trait PageFile {
    /// What the file tells of itself.
    ghost view: { Self → FileView };

    /// Opens the file where it isn't open yet, and answers how far it is opened: to be read, with its lock; or to be read and
    /// written, with its lock alone and its name stable. `Closed` where it isn't there and is only to be read.
    fn open(&mut self) -> Result<FileStage, CallFault>
        ensures reached { IfOk result (λ stage. (view self.new).stage ≡ stage) }
        // A file that can't be opened since it isn't there has no bytes.
        ensures absent { result ≡ Ok FileStage.Closed → IfSome (view self.old).bytes (IsAbsent (view self.old)) }
        // Opening leaves the file the same, and what a crash may leave.
        ensures same { IsSameFile (view self.old) (view self.new) }
        ensures cause { HasCause (view self.old).faults (view self.new).faults result };

    /// The number of its bytes. Only where its lock is held.
    fn len(&mut self) -> Result<u64, CallFault>
        requires { MayRead (view self.old).stage }
        ensures len { IfOk result (λ n. IfSome (view self.old).bytes (λ bytes. n ≡ length bytes)) }
        ensures stage { (view self.new).stage ≡ (view self.old).stage }
        ensures same { IsSameFile (view self.old) (view self.new) }
        ensures cause { HasCause (view self.old).faults (view self.new).faults result };

    /// Reads bytes from a place on into the front of a piece, and answers how many came; none come at the file's end. Only where its
    /// lock is held.
    fn read_some(&mut self, at: u64, into: &mut [u8]) -> Result<usize, CallFault>
        requires { MayRead (view self.old).stage }
        ensures within { IfOk result (λ n. n ≤ length into.old) }
        // What came are the file's bytes from the place on.
        ensures came { IfOk result (λ n. IfSome (view self.old).bytes (λ bytes. Came bytes at into.new n)) }
        ensures stage { (view self.new).stage ≡ (view self.old).stage }
        ensures same { IsSameFile (view self.old) (view self.new) }
        ensures cause { HasCause (view self.old).faults (view self.new).faults result };

    /// Writes the first bytes of a piece at a place, and answers how many: at least one, unless the piece is empty. Only where its lock
    /// is held alone and its name is stable, and at a place no further than its end.
    fn write_some(&mut self, at: u64, from: &[u8]) -> Result<usize, CallFault>
        requires named { MayWrite (view self.old).stage }
        requires joins { IfSome (view self.old).bytes (λ bytes. at ≤ length bytes) }
        ensures within { IfOk result (λ n. n ≤ length from.now) }
        ensures some { IfOk result (λ n. 0 < length from.now → 0 < n) }
        // What was written stands at the place, and the other bytes are as they were.
        ensures written { IfOk result (λ n. (view self.new).bytes ≡ option_map (put_bytes at (take n from.now)) (view self.old).bytes) }
        // Whatever the answer, the other bytes are as they were.
        ensures torn { MatchOption (view self.old).bytes ((view self.new).bytes ≡ None) (λ bytes. IsSomeAnd (view self.new).bytes (TornBytes at (length from.now) bytes)) }
        // A call that was interrupted wrote nothing.
        ensures interrupted { result ≡ Err CallFault.Interrupted → (view self.new).bytes ≡ (view self.old).bytes }
        ensures stage { (view self.new).stage ≡ (view self.old).stage }
        // Whatever a crash may leave after a write is something that it might have left before, with any bytes in that place.
        ensures crash { FollowsByWrite at (length from.now) (view self.old).may_leave (view self.new).may_leave }
        // A write makes nothing stable.
        ensures keeps { KeepsOutcomes (view self.old).may_leave (view self.new).may_leave }
        ensures time { FileTimeGoesOn (view self.old) (view self.new) }
        ensures cause { HasCause (view self.old).faults (view self.new).faults result };

    /// Makes stable what was written. After an error nothing is more stable than before.
    fn sync(&mut self) -> Result<(), CallFault>
        requires { MayRead (view self.old).stage }
        // After a good sync a crash leaves nothing but the file's bytes.
        ensures durable { OnOk result (IfSome (view self.old).bytes (λ bytes. OnlyBytes bytes (view self.new).may_leave)) }
        ensures bytes { (view self.new).bytes ≡ (view self.old).bytes }
        ensures stage { (view self.new).stage ≡ (view self.old).stage }
        ensures crash { KeepsOutcomes (view self.new).may_leave (view self.old).may_leave }
        ensures nothing_stable { OnErr result (KeepsOutcomes (view self.old).may_leave (view self.new).may_leave) }
        ensures time { FileTimeGoesOn (view self.old) (view self.new) }
        ensures cause { HasCause (view self.old).faults (view self.new).faults result };

    /// The bytes of a file as it reads are an outcome of a crash.
    ghost as_it_reads: { (file : Self) (bytes : List ℕ) → (view file).bytes ≡ Some bytes → (view file).may_leave bytes };

    /// This moment is one of those since an earlier one.
    ghost counts_now: { (file : Self) (t : ℕ) (bytes : List ℕ) → t ≤ (view file).moment → (view file).may_leave bytes → (view file).left_since t bytes };

    /// Since this moment there is no other.
    ghost only_now: { (file : Self) (bytes : List ℕ) → (view file).left_since (view file).moment bytes → (view file).may_leave bytes };
}
