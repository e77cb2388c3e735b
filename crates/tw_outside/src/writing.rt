// Writing a text whole to a sink, which may take a part at a time.
ghost use Rattle.std.specs.Prelude.{OnOk, OnErr};
ghost use Rattle.tw_base.specs.kinds.Faults.{HasCause};
ghost use Rattle.tw_outside.specs.TakenBytes.{Appends, AppendsPart};

use crate::sink::Sink;
use tw_base::Failed;

/// Writes a text whole, by as many writes as the sink needs.
///
/// `Failed` comes only where the sink failed. Then it has taken the first bytes of the text, and not all of them.
pub fn write_all<S: Sink>(sink: &mut S, text: &[u8]) -> Result<(), Failed>
    // Writing whole appends the text.
    ensures ok { OnOk result (Appends (S.taken sink.old) (S.taken sink.new) text.now) }
    // Where it fails, it appended a part of the text.
    ensures err { OnErr result (AppendsPart (S.taken sink.old) (S.taken sink.new) text.now) }
    // It fails only where the count of faults rose.
    ensures cause { HasCause (S.faults sink.old) (S.faults sink.new) result }
{
    let mut written = 0;
    while written < text.len() {
        written += sink.write(&text[written..])?;
    }
    Ok(())
}
