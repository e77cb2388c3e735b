// The sides of an audit path.

ghost use Rattle.std.specs.Prelude.{◌≡◌, ◌<◌, ◌≤◌, reverse};
ghost use Rattle.arrayvec.specs.ArrayVec.{array_vec_len};
ghost use Rattle.tw_base.specs.declared.kinds.limits.TheConstants.{MOST_EVENTS};
ghost use Rattle.tw_base.specs.events.AuditPath.{path_length as length_of_path, path_sides};

use crate::events::halves::left_count;
use crate::events::side::Side;
use arrayvec::ArrayVec;

/// On which side each label of the path of that index among so many events stands, from the root
/// downwards, so that the lowest is popped first.
pub fn sides_of(count: usize, index: usize) -> ArrayVec<Side, 10>
    requires inside { index < count }
    requires few { count ≤ MOST_EVENTS }
    ensures sides { reverse result.items ≡ path_sides count index }
    ensures len { array_vec_len result ≡ length_of_path count index }
{
    let mut sides: ArrayVec<Side, 10> = ArrayVec::new();
    let mut count = count;
    let mut index = index;
    while count > 1 {
        let half = left_count(count);
        if index < half {
            sides.push(Side::Right);
            count = half;
        } else {
            sides.push(Side::Left);
            count -= half;
            index -= half;
        }
    }
    sides
}

/// How many labels the audit path of that index among so many events has, of at most 1,024 events:
/// at most 10.
pub fn path_length(count: u32, index: u32) -> u8
    requires inside { index < count }
    requires few { count ≤ MOST_EVENTS }
    ensures value { result ≡ length_of_path count index }
    ensures bound { result ≤ 10 }
{
    sides_of(count as usize, index as usize).len() as u8
}
