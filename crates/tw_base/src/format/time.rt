// Reading times that steps have or not, and writing them into files; tw_answers and tw_steppage have a `put_time` of their own.

ghost use Rattle.std.specs.Prelude.{◌≡◌, ◌≢◌, ◌-◌, ◌^◌, ◌≤◌, length, is_some, IfErr};
ghost use Rattle.tw_base.specs.format.Codecs.{number_codec, optional};
ghost use Rattle.tw_base.specs.history.HistoryCodec.{time_codec};
ghost use Rattle.tw_base.specs.format.Taking.{Puts, Takes};

use crate::format::taking::take_number;
use crate::format::writers::put_number;
use crate::kinds::failure::{NoMemory, ReadFault};
use crate::kinds::limits::LAST_TIME;
use crate::kinds::sequence::Bytes;

/// Takes a time in eight bytes, at most 2^40 - 1, where there is to be one.
#[tactic(auto, unfolding(crate::specs::format::Codecs::nothing, crate::specs::format::Codecs::present))]
pub fn take_time(bytes: &[u8], at: &mut u64, is_timed: bool) -> Result<Option<u64>, ReadFault>
    requires { at.old ≤ length bytes.now }
    // A time is taken at a place, where there is to be one, exactly as its codec reads it; else the place of the first
    // bad byte is told.
    ensures takes { Takes (optional is_timed time_codec) (λ time. time) bytes.now at.old at.new result }
    // `NoMemory` is never answered.
    ensures memory { IfErr result (λ fault. fault ≢ ReadFault.NoMemory) }
{
    if !is_timed {
        return Ok(None);
    }
    let time = take_number(bytes, at, 8, 0, LAST_TIME)?;
    Ok(Some(time))
}

/// Appends the time in eight bytes, where there is one.
#[tactic(auto, unfolding(crate::specs::format::Codecs::number_codec, crate::specs::format::Seen::choices))]
pub fn put_time(into: &mut Bytes, time: Option<u64>) -> Result<(), NoMemory>
    // A time is appended as its codec writes it, where there is one.
    ensures { Puts (optional (is_some time) (number_codec 8 0 (2 ^ 64 - 1))) time into.old into.new result }
{
    match time {
        None => Ok(()),
        Some(time) => put_number(into, time, 8),
    }
}
