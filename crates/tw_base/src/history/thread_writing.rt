// Appending a thread to `Bytes`; `format/fixed.rt` puts one into a fixed array.

ghost use Rattle.std.specs.Prelude.{◌≡◌, ◌++◌, OnOk};
ghost use Rattle.tw_base.specs.history.HistoryCodec.{thread_codec};
ghost use Rattle.tw_base.specs.history.Limits.{IsStep};

use crate::format::writers::{put_digest, put_name, put_number};
use crate::history::thread::Thread;
use crate::kinds::failure::NoMemory;
use crate::kinds::sequence::Bytes;

/// Appends the thread, 56 bytes. They spell it where its step is within 1 to 2^40 - 1.
#[tactic(auto, unfolding(crate::specs::history::Seen::threads))]
pub fn put_thread(into: &mut Bytes, thread: &Thread) -> Result<(), NoMemory>
    // What is appended of a thread is its bytes in the format.
    ensures ok { OnOk result (into.new ≡ into.old ++ thread_codec.write thread.now) }
    // A thread whose step is within its limits has that spelling.
    ensures fits { OnOk result (IsStep thread.now.step → thread_codec.Fits thread.now) }
{
    put_name(into, &thread.from)?;
    put_number(into, thread.step, 8)?;
    put_digest(into, &thread.auth)
}
