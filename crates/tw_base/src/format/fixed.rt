// The writers of a file's fields into fixed arrays that have room for them, for root records and receipts: they take no
// memory. `writers.rt` appends the same fields to `Bytes`, `page_bytes.rt` fills a page. Numbers are big-endian.

ghost use Rattle.std.specs.Prelude.{◌≡◌, ◌+◌, ◌≤◌, ◌++◌};
ghost use Rattle.arrayvec.specs.ArrayVec.{array_vec_len};
ghost use Rattle.tw_base.specs.format.Fields.{number_bytes};
ghost use Rattle.tw_base.specs.history.HistoryCodec.{thread_codec};
ghost use Rattle.tw_base.specs.history.Limits.{IsStep};
ghost use Rattle.tw_base.specs.kinds.Bytes.{HasBytes};
ghost use Rattle.tw_base.specs.kinds.Names.{IsName};

use crate::history::thread::Thread;
use crate::kinds::digest::{Digest, see_digest};
use crate::kinds::fixed_list::put;
use arrayvec::ArrayVec;

/// Puts a number in eight bytes.
pub fn put_number<const N: usize>(into: &mut ArrayVec<u8, N>, number: u64)
    requires { array_vec_len into.old + 8 ≤ N }
    // The eight bytes of a number stand behind those that were put in before, the highest first.
    ensures items { into.new.items ≡ into.old.items ++ number_bytes 8 number }
    ensures len { array_vec_len into.new ≡ array_vec_len into.old + 8 }
{
    put(into, &number.to_be_bytes());
}

/// Puts the 32 bytes of a digest.
pub fn put_digest<const N: usize>(into: &mut ArrayVec<u8, N>, digest: &Digest)
    requires { array_vec_len into.old + 32 ≤ N }
    // The bytes of a digest stand behind those that were put in before.
    ensures items { into.new.items ≡ into.old.items ++ digest.now }
    ensures len { array_vec_len into.new ≡ array_vec_len into.old + 32 }
    ensures fits { HasBytes 32 digest.now }
{
    see_digest(digest);
    put(into, &digest.0);
}

/// Puts a thread, 56 bytes. They spell it where its step is within 1 to 2^40 - 1.
#[tactic(auto, unfolding(crate::specs::format::Fields::number_bytes, crate::specs::history::Seen::threads))]
pub fn put_thread<const N: usize>(into: &mut ArrayVec<u8, N>, thread: &Thread)
    requires { array_vec_len into.old + 56 ≤ N }
    // The bytes that the format gives a thread stand behind those that were put in before.
    ensures items { into.new.items ≡ into.old.items ++ thread_codec.write thread.now }
    ensures len { array_vec_len into.new ≡ array_vec_len into.old + 56 }
    // A thread whose step is within its limits has that spelling.
    ensures fits { IsStep thread.now.step → thread_codec.Fits thread.now }
    ensures name { IsName thread.now.from }
{
    put(into, thread.from.as_bytes());
    put_number(into, thread.step);
    put_digest(into, &thread.auth);
}
