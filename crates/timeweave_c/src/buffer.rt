// Putting a text into the buffer of the caller, as much as it has room for; a run of the program writes its text to a sink
// (tw_app/src/ending.rt).

ghost use Rattle.std.specs.Prelude.{◌≡◌, length};
ghost use Rattle.timeweave_c.specs.Buffers.{put_in};

/// Puts as much of the text as has room at the front of the buffer.
pub(crate) fn put(text: &[u8], out: &mut [u8])
    ensures { out.new ≡ put_in text.now out.old }
{
    let count = text.len().min(out.len());
    out[..count].copy_from_slice(&text[..count]);
}

/// Answers the status; the text goes into the buffer, and its size is told.
pub(crate) fn tell(status: u8, text: &[u8], out: &mut [u8], text_size: &mut usize) -> u32
    ensures status { result ≡ status }
    ensures size { text_size.new ≡ length text.now }
    ensures text { out.new ≡ put_in text.now out.old }
{
    *text_size = text.len();
    put(text, out);
    status as u32
}
