// Keeping the numbers of standard streams that are closed from files that are opened later.

ghost use Rattle.std.specs.Prelude.{◌≡◌, Bool, Option, IfSome};

use std::fs::{self, File};
use std::os::fd::AsFd;

/// The numbers of the standard streams.
pub trait Numbers {
    /// Whether each of them is that of an open file; none where that isn't told.
    ghost told: { Self → Option Bool };

    /// Whether each of them is that of an open file.
    fn are_open(&self) -> bool
        ensures { IfSome (told self.now) (λ is. result ≡ is) };

    /// Opens files, which take numbers that are closed.
    fn fill(&mut self);
}

/// Sees that each number is that of an open file, and tells whether it is. As long as what was opened is kept, no file that is
/// opened later takes such a number, so that what is written to a closed standard output fails, and doesn't go into a store.
pub fn keep<N: Numbers>(numbers: &mut N) -> bool
    ensures { IfSome (N.told numbers.new) (λ is. result ≡ is) }
{
    if numbers.are_open() {
        return true;
    }
    numbers.fill();
    numbers.are_open()
}

/// Those of standard input, output and error. The system tells nothing of them: that they are as `Numbers` says is trusted.
#[derive(Drop)]
pub struct StandardNumbers<'a> {
    pub rt: &'a HostRuntime,
    /// The files that were opened to take those that were closed.
    pub kept: [Option<File>; 3],
}

impl Numbers for StandardNumbers<'_> {
    ghost use Rattle.std.specs.Prelude.{None};

    ghost told = { λ _. None };

    fn are_open(&self) -> bool {
        is_open(self.rt.stdin()) && is_open(self.rt.stdout()) && is_open(self.rt.stderr())
    }

    fn fill(&mut self) {
        self.kept = [
            null_device(self.rt),
            null_device(self.rt),
            null_device(self.rt),
        ];
    }
}

/// Whether the stream is open: only such a one has a duplicate.
fn is_open<F: AsFd + Drop>(stream: F) -> bool {
    stream.as_fd().try_clone_to_owned().is_ok()
}

/// The null device, to be read only.
fn null_device(rt: &HostRuntime) -> Option<File> {
    match fs::open(rt, "/dev/null") {
        Ok(file) => Some(file),
        Err(_) => None,
    }
}
