// The anchors of an anchors file, or the fault with its first bad line; `verify_file` of tw_filecmd reads them by itself,
// since it reads the proof before it tells a bad line.

ghost use Rattle.std.specs.Prelude.{◌≤◌, ℕ, List, length, IfErr, IfOk};
ghost use Rattle.tw_base.specs.declared.kinds.limits.TheConstants.{MOST_ANCHORS};
ghost use Rattle.tw_msg.specs.AnchorsFile.{IsNoAnchors};
ghost use Rattle.tw_reachcmd.specs.Anchors.{AreAnchorsOf};

use std::alloc::Global;
use tw_base::Threads;
use tw_msg::{AnchorFault, read_anchors};
use tw_text::{CommandFault, bad_line};

/// The anchors of the lines of an anchors file; or the fault that names the file and its first bad line.
pub(crate) fn anchors_of(alloc: Global, file: &str, lines: &[u8]) -> Result<Threads, CommandFault>
    ensures anchors { IfOk result (AreAnchorsOf lines.now) }
    ensures few { IfOk result (λ anchors. length anchors ≤ MOST_ANCHORS) }
    ensures bad { IfErr result (IsNoAnchors file.now lines.now) }
{
    match read_anchors(alloc, lines) {
        Ok(anchors) => Ok(anchors),
        Err(AnchorFault::BadLine { line }) => {
            Err(CommandFault::Unreadable(bad_line(alloc, file, line)?))
        }
        Err(AnchorFault::NoMemory) => Err(CommandFault::NoMemory),
    }
}
