// Putting items at the end of a list in a fixed array, which takes no memory.

ghost use Rattle.std.specs.Prelude.{◌≡◌, ◌+◌, ◌≤◌, ◌++◌, length};
ghost use Rattle.arrayvec.specs.ArrayVec.{array_vec_len};

use arrayvec::ArrayVec;

/// Puts the items at the end of a list that has room for them.
pub fn put<T: Copy + Drop, const N: usize>(list: &mut ArrayVec<T, N>, items: &[T])
    requires { array_vec_len list.old + length items.now ≤ N }
    ensures items { list.new.items ≡ list.old.items ++ items.now }
    ensures len { array_vec_len list.new ≡ array_vec_len list.old + length items.now }
{
    match list.try_extend_from_slice(items) {
        Ok(()) => {}
        Err(_) => unreachable!(),
    }
}
