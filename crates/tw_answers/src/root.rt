// The root record of a service: what it says, its bytes, and which bytes are one; a follower's is in `tw_follow`.

ghost use Rattle.std.specs.Prelude.{◌≡◌, ◌≢◌, ℕ, ◌+◌, ◌-◌, ◌*◌, ◌≤◌, ◌<◌, ◌^◌, ◌++◌, List, length, IfErr, IfOk, IfSome, IsTrue, ◌↔◌, MatchOption, is_some};
ghost use Rattle.arrayvec.specs.ArrayVec.{array_vec_len};
ghost use Rattle.tw_base.specs.declared.kinds.limits.TheConstants.{LAST_STEP};
ghost use Rattle.tw_base.specs.format.Codecs.{optional};
ghost use Rattle.tw_base.specs.history.HistoryCodec.{time_codec};
ghost use Rattle.tw_base.specs.kinds.Names.{IsName};
ghost use Rattle.tw_base.specs.format.Taking.{Takes};
ghost use Rattle.tw_answers.specs.declared.root.RootRecord.{RootRecord};
ghost use Rattle.tw_answers.specs.Roots.{FitsStore, HasLastPage, IsAllowed, root_bytes, root_codec};

use crate::limits::{MOST_PAGES_OF_A_STEP, TIMED_ROOT_BYTES};
use arrayvec::ArrayVec;
use tw_base::fixed::{put_digest, put_number};
use tw_base::limits::LAST_STEP;
use tw_base::{
    Name, ReadFault, Root, put, take_digest, take_name, take_number, take_time, whole_to,
};
use tw_disk::limits::FIRST_PAGE;
use tw_skiplist::Head;

/// What the root record of a service says: its name, its head, the archive after its last step, how
/// many threads it received, and the greatest time of its steps, where one has a time.
#[derive(Drop)]
pub struct RootRecord {
    pub name: Name,
    pub head: Head,
    pub archive: Root,
    pub threads: u64,
    pub time: Option<u64>,
}

/// Puts a time at the record's end, where there is one.
#[tactic(auto, unfolding(tw_base::specs::format::Seen::codecs))]
fn put_time(text: &mut ArrayVec<u8, 512>, time: Option<u64>)
    requires { array_vec_len text.old ≤ 504 }
    ensures bytes { text.new.items ≡ text.old.items ++ (optional (is_some time) time_codec).write time }
    ensures size { array_vec_len text.new ≤ array_vec_len text.old + 8 }
{
    if let Some(time) = time {
        put_number(text, time);
    }
}

/// The bytes of a root record.
#[tactic(auto, unfolding(crate::specs::Roots::root_codec, tw_base::specs::format::Seen::codecs))]
pub fn root_record(root: &RootRecord) -> ArrayVec<u8, 512>
    ensures bytes { result.items ≡ root_bytes root.now }
    ensures size { length result.items ≤ TIMED_ROOT_BYTES }
    ensures name { IsName root.now.name }
{
    let mut text: ArrayVec<u8, 512> = ArrayVec::new();
    put(&mut text, root.name.as_bytes());
    put_number(&mut text, root.head.step);
    put_digest(&mut text, &root.head.auth);
    put_number(&mut text, root.head.page);
    put_number(&mut text, root.archive.page);
    put_digest(&mut text, &root.archive.label);
    put_number(&mut text, root.threads);
    put_time(&mut text, root.time);
    text
}

/// Takes a root record, with a time or without.
#[tactic(auto, unfolding(crate::specs::Roots::root_codec, tw_base::specs::format::Seen::records))]
fn take_root(bytes: &[u8], at: &mut u64, is_timed: bool) -> Result<RootRecord, ReadFault>
    requires { at.old ≤ length bytes.now }
    ensures takes { Takes (root_codec is_timed) (λ r. r) bytes.now at.old at.new result }
    ensures short { IfOk result (λ r. r.head.step ≤ LAST_STEP) }
    ensures memory { IfErr result (λ fault. fault ≢ ReadFault.NoMemory) }
{
    let name = take_name(bytes, at)?;
    let step = take_number(bytes, at, 8, 0, LAST_STEP)?;
    let auth = take_digest(bytes, at)?;
    let page = take_number(bytes, at, 8, 0, u64::MAX)?;
    let archive = take_number(bytes, at, 8, 0, u64::MAX)?;
    let label = take_digest(bytes, at)?;
    let threads = take_number(bytes, at, 8, 0, LAST_STEP)?;
    let time = take_time(bytes, at, is_timed)?;
    Ok(RootRecord {
        name,
        head: Head { step, auth, page },
        archive: Root {
            page: archive,
            label,
        },
        threads,
        time,
    })
}

/// Whether a page may be the last one of so many things in a store of so many used pages.
fn is_last_page(used: u64, count: u64, page: u64) -> bool
    ensures { IsTrue result ↔ HasLastPage used count page }
{
    if count == 0 {
        page == 0
    } else {
        FIRST_PAGE <= page && page < used
    }
}

/// Whether the record may be the root record of a store of so many used pages and of this generation: each step has one commit, at
/// most `MOST_PAGES_OF_A_STEP` pages and at most one thread.
fn fits_store(root: &RootRecord, used: u64, generation: u64) -> bool
    requires { root.now.head.step ≤ LAST_STEP }
    ensures { IsTrue result ↔ FitsStore used generation root.now }
{
    let steps = root.head.step;
    used <= FIRST_PAGE + MOST_PAGES_OF_A_STEP * steps
        && generation <= steps + 1
        && root.threads <= steps
        && (root.time.is_none() || 0 < steps)
        && is_last_page(used, steps, root.head.page)
        && is_last_page(used, root.threads, root.archive.page)
}

/// The root record that the bytes are, in a store of so many used pages and of this generation; None
/// exactly where they are none that is allowed there.
pub fn read_root(bytes: &[u8], used: u64, generation: u64) -> Option<RootRecord>
    ensures root { MatchOption result ((r : RootRecord) → bytes.now ≡ root_bytes r → IsAllowed used generation r → ⊥)
        (λ r. (bytes.now ≡ root_bytes r) × IsAllowed used generation r) }
    ensures short { IfSome result (λ r. r.head.step ≤ LAST_STEP) }
    ensures few_threads { IfSome result (λ r. r.threads ≤ r.head.step) }
{
    let mut at = 0;
    let is_timed = bytes.len() as u64 == TIMED_ROOT_BYTES;
    let read = take_root(bytes, &mut at, is_timed);
    match whole_to(bytes, at, read) {
        Ok(root) => {
            if fits_store(&root, used, generation) {
                Some(root)
            } else {
                None
            }
        }
        Err(_) => None,
    }
}
