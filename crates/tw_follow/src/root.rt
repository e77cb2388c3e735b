// The root record of a follower: what it says, its bytes, and which bytes are one; a service's is in `tw_answers`.

ghost use Rattle.std.specs.Prelude.{◌≡◌, ◌≢◌, ℕ, ◌+◌, ◌≤◌, ◌++◌, length, IfErr, IfOk, IfSome, IsTrue, ◌↔◌, MatchOption};
ghost use Rattle.tw_base.specs.declared.kinds.limits.TheConstants.{LAST_STEP};
ghost use Rattle.tw_base.specs.format.Taking.{Takes};
ghost use Rattle.tw_base.specs.kinds.Names.{IsName};
ghost use Rattle.tw_follow.specs.declared.limits.TheConstants.{ROOT_BYTES};
ghost use Rattle.tw_follow.specs.declared.root.RootRecord.{RootRecord};
ghost use Rattle.tw_follow.specs.Roots.{FitsStore, HasPage, IsAllowed, IsBegun, root_bytes, root_codec};

use arrayvec::ArrayVec;
use tw_base::fixed::{put_number, put_thread};
use tw_base::limits::LAST_STEP;
use tw_base::{Hasher, ReadFault, Thread, genesis, take_digest, take_name, take_number, whole_to};
use tw_disk::limits::FIRST_PAGE;

/// What the root record of a follower says: its head, which before the first one is step 0 with the
/// authenticator of the name, and the page of the head, which then is 0.
#[derive(Drop)]
pub(crate) struct RootRecord {
    pub head: Thread,
    pub page: u64,
}

/// The bytes of a root record.
#[tactic(auto, unfolding(crate::specs::Roots::root_codec, tw_base::specs::history::Seen::threads))]
pub(crate) fn root_record(root: &RootRecord) -> ArrayVec<u8, 512>
    ensures bytes { result.items ≡ root_bytes root.now }
    ensures size { length result.items ≤ ROOT_BYTES }
    ensures name { IsName root.now.head.from }
{
    let mut text: ArrayVec<u8, 512> = ArrayVec::new();
    put_thread(&mut text, &root.head);
    put_number(&mut text, root.page);
    text
}

/// Takes a root record.
#[tactic(auto, unfolding(crate::specs::Roots::root_codec, tw_base::specs::format::Seen::records))]
fn take_root(bytes: &[u8], at: &mut u64) -> Result<RootRecord, ReadFault>
    requires { at.old ≤ length bytes.now }
    ensures takes { Takes root_codec (λ r. r) bytes.now at.old at.new result }
    ensures short { IfOk result (λ r. r.head.step ≤ LAST_STEP) }
    ensures memory { IfErr result (λ fault. fault ≢ ReadFault.NoMemory) }
{
    let from = take_name(bytes, at)?;
    let step = take_number(bytes, at, 8, 0, LAST_STEP)?;
    let auth = take_digest(bytes, at)?;
    let page = take_number(bytes, at, 8, 0, u64::MAX)?;
    Ok(RootRecord {
        head: Thread { from, step, auth },
        page,
    })
}

/// Whether the record names a page exactly where it has a head of a step from 1 on.
fn has_page(root: &RootRecord) -> bool
    ensures { IsTrue result ↔ HasPage root.now }
{
    (root.head.step == 0) == (root.page == 0)
}

/// Whether the head of step 0 has the authenticator of the name.
fn is_begun<H: Hasher>(root: &RootRecord) -> bool
    ensures { IsTrue result ↔ IsBegun H.dig root.now }
{
    root.head.step != 0 || root.head.auth == genesis::<H>(&root.head.from)
}

/// Whether the record may be the root record of a store of so many used pages and of this generation: each head has one page and one
/// commit, and a step above the one before.
fn fits_store<H: Hasher>(root: &RootRecord, used: u64, generation: u64) -> bool
    requires { root.now.head.step ≤ LAST_STEP }
    ensures { IsTrue result ↔ FitsStore H.dig used generation root.now }
{
    let step = root.head.step;
    used <= FIRST_PAGE + step && generation <= step + 1 && has_page(root) && is_begun::<H>(root)
}

/// The root record that the bytes are, in a store of so many used pages and of this generation; None
/// exactly where they are none that is allowed there.
pub(crate) fn read_root<H: Hasher>(bytes: &[u8], used: u64, generation: u64) -> Option<RootRecord>
    ensures root { MatchOption result ((r : RootRecord) → bytes.now ≡ root_bytes r → IsAllowed H.dig used generation r → ⊥)
        (λ r. (bytes.now ≡ root_bytes r) × IsAllowed H.dig used generation r) }
    ensures short { IfSome result (λ r. r.head.step ≤ LAST_STEP) }
{
    let mut at = 0;
    let read = take_root(bytes, &mut at);
    match whole_to(bytes, at, read) {
        Ok(root) => {
            if fits_store::<H>(&root, used, generation) {
                Some(root)
            } else {
                None
            }
        }
        Err(_) => None,
    }
}
