// Writing a thread as a line of an anchors file; such files are read in `tw_msg`.

ghost use Rattle.std.specs.Prelude.{◌≡◌, ◌≤◌, ◌+◌, ◌++◌, length, take};
ghost use Rattle.tw_text.specs.Lines.{anchor_text, hex_text};

use itoa::Buffer;
use tw_base::{Digest, Thread};

/// A line of an anchors file: the first `count` of the bytes, of which a name of 16 bytes and a number of 20 digits take 103.
#[derive(Clone, Copy, Debug, Drop)]
pub struct AnchorLine {
    pub count: u8,
    pub bytes: [u8; 103],
}

/// The line `NAME STEP HEX` of the thread, in lower case and with its line feed. It takes no
/// memory.
pub fn anchor_line(thread: &Thread) -> AnchorLine
    // The line of a thread is exactly the text of the definitions.
    ensures text { take result.count result.bytes ≡ anchor_text thread.now }
    ensures count { result.count ≤ 103 }
{
    let mut line = AnchorLine {
        count: 0,
        bytes: [0; 103],
    };
    let mut step = Buffer::new();
    put(&mut line, thread.from.text());
    put(&mut line, b" ");
    put(&mut line, step.format(thread.step).as_bytes());
    put(&mut line, b" ");
    put(&mut line, &digits(&thread.auth));
    put(&mut line, b"\n");
    line
}

/// Puts the bytes at the line's end.
fn put(line: &mut AnchorLine, bytes: &[u8])
    requires { line.old.count + length bytes.now ≤ 103 }
    ensures text { take line.new.count line.new.bytes ≡ take line.old.count line.old.bytes ++ bytes.now }
    ensures count { line.new.count ≡ line.old.count + length bytes.now }
{
    let start = line.count as usize;
    let end = start + bytes.len();
    line.bytes[start..end].copy_from_slice(bytes);
    line.count = end as u8;
}

/// The digest in lower-case hexadecimal.
fn digits(digest: &Digest) -> [u8; 64]
    ensures { result ≡ hex_text digest.now }
{
    let mut digits = [0; 64];
    match hex::encode_to_slice(digest.0, &mut digits) {
        Ok(()) => digits,
        Err(_) => unreachable!(),
    }
}
