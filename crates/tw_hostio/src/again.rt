// Calls that a signal may interrupt.

use std::io::{self, ErrorKind};

/// What a call answers that is made again as often as a signal interrupts it.
pub(crate) fn again<T: Drop, F: FnMut() -> io::Result<T> + Drop>(call: F) -> io::Result<T>
    requires { F.IsAlwaysCallable call }
{
    let mut call = call;
    for _ in 0..u64::MAX {
        match call() {
            Err(error) if error.kind() == ErrorKind::Interrupted => {}
            answer => return answer,
        }
    }
    Err(io::Error::from(ErrorKind::Interrupted))
}
