// Whole pages by calls that may transfer a part, or be interrupted.
ghost use Rattle.std.specs.Prelude.{◌≡◌, ◌<◌, ◌≤◌, ◌+◌, ◌*◌, ◌/◌, ◌^◌, length, take, drop, None, IfOk, IfSome, OnOk, OnErr, MatchOption};
ghost use Rattle.std.specs.Option.{option_map, IsSomeAnd};
ghost use Rattle.tw_base.specs.declared.kinds.limits.TheConstants.{PAGE_SIZE};
ghost use Rattle.tw_hostio.specs.FileBytes.{put_bytes, TornBytes};
ghost use Rattle.tw_hostio.specs.PageFile.{MayRead, MayWrite, OnlyBytes, FollowsByWrite, KeepsOutcomes, FileTimeGoesOn, IsSameFile};

use crate::call_fault::CallFault;
use crate::page_file::PageFile;
use tw_base::limits::PAGE_SIZE;
use tw_base::{Failed, Page};

/// The place in the file at which a page begins.
pub(crate) fn place_of(page: u64) -> Result<u64, Failed>
    ensures value { IfOk result (λ place. place ≡ PAGE_SIZE * page) }
    ensures fits { OnOk result (PAGE_SIZE * (page + 1) ≤ 2 ^ 64) }
{
    match page.checked_mul(PAGE_SIZE as u64) {
        Some(place) => Ok(place),
        None => Err(Failed),
    }
}

/// Counts the whole pages of the file.
pub(crate) fn count_pages<F: PageFile>(file: &mut F) -> Result<u64, Failed>
    requires { MayRead (F.view file.old).stage }
    ensures count { IfOk result (λ n. IfSome (F.view file.old).bytes (λ bytes. n ≡ length bytes / PAGE_SIZE)) }
    ensures same { IsSameFile (F.view file.old) (F.view file.new) }
{
    for _ in 0..u64::MAX {
        match file.len() {
            Ok(length) => return Ok(length / PAGE_SIZE as u64),
            Err(CallFault::Interrupted) => {}
            Err(CallFault::Failure) => return Err(Failed),
        }
    }
    Err(Failed)
}

/// Reads a page whole from this place on.
pub(crate) fn read_page<F: PageFile>(file: &mut F, at: u64, into: &mut Page) -> Result<(), Failed>
    requires locked { MayRead (F.view file.old).stage }
    requires fits { at + PAGE_SIZE ≤ 2 ^ 64 }
    ensures bytes { OnOk result (IfSome (F.view file.old).bytes (λ bytes. (at + PAGE_SIZE ≤ length bytes) × (into.new ≡ take PAGE_SIZE (drop at bytes)))) }
    ensures same { IsSameFile (F.view file.old) (F.view file.new) }
{
    let mut done = 0;
    for _ in 0..u64::MAX {
        if done >= PAGE_SIZE {
            return Ok(());
        }
        match file.read_some(at + done as u64, &mut into[done..]) {
            Ok(came) if came > 0 => done += came,
            Err(CallFault::Interrupted) => {}
            _ => return Err(Failed),
        }
    }
    Err(Failed)
}

/// Writes a page whole at this place, which is no further than the file's end.
pub(crate) fn write_page<F: PageFile>(file: &mut F, at: u64, from: &Page) -> Result<(), Failed>
    requires named { MayWrite (F.view file.old).stage }
    requires fits { at + PAGE_SIZE ≤ 2 ^ 64 }
    requires joins { IfSome (F.view file.old).bytes (λ bytes. at ≤ length bytes) }
    ensures written { OnOk result ((F.view file.new).bytes ≡ option_map (put_bytes at from.now) (F.view file.old).bytes) }
    ensures torn { MatchOption (F.view file.old).bytes ((F.view file.new).bytes ≡ None) (λ bytes. IsSomeAnd (F.view file.new).bytes (TornBytes at PAGE_SIZE bytes)) }
    ensures crash { FollowsByWrite at PAGE_SIZE (F.view file.old).may_leave (F.view file.new).may_leave }
    ensures time { FileTimeGoesOn (F.view file.old) (F.view file.new) }
{
    let mut done = 0;
    for _ in 0..u64::MAX {
        if done >= PAGE_SIZE {
            return Ok(());
        }
        match file.write_some(at + done as u64, &from[done..]) {
            Ok(taken) => done += taken,
            Err(CallFault::Interrupted) => {}
            Err(CallFault::Failure) => return Err(Failed),
        }
    }
    Err(Failed)
}
