// Lines that are always the same. They take no memory, as want of it is told by one.

ghost use Rattle.std.specs.Prelude.{◌≡◌};
ghost use Rattle.tw_text.specs.Lines.{fault_disk_text, fault_input_text, no_memory_text};

/// The line of an input that failed.
pub fn fault_input() -> &'static [u8]
    // The text is the one of the definitions.
    ensures { result.now ≡ fault_input_text }
{
    b"fault input\n"
}

/// The line of a disk that failed.
pub fn fault_disk() -> &'static [u8]
    // The text is the one of the definitions.
    ensures { result.now ≡ fault_disk_text }
{
    b"fault disk\n"
}

/// The line of want of memory.
pub fn no_memory() -> &'static [u8]
    // The text is the one of the definitions.
    ensures { result.now ≡ no_memory_text }
{
    b"no memory\n"
}
