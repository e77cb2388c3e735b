// Reading two files of `accuse`, `checkfork` or `checkmap`, which need both before they judge one.

ghost use Rattle.std.specs.Prelude.{◌≡◌, ◌≤◌, ◌↔◌, ℕ, List, Err, IfOk, OnOk};
ghost use Rattle.tw_base.specs.kinds.Faults.{Rose};
ghost use Rattle.tw_outside.specs.Files.{IsReadTo, IsThere};

use std::alloc::Global;
use tw_base::InputFault;
use tw_filecmd::limits::FILE_READ;
use tw_outside::{Inputs, read_all};

/// Reads both named files, one after the other, each to its end or to `FILE_READ` bytes.
pub(crate) fn read_both<I: Inputs>(
    alloc: Global,
    inputs: &mut I,
    first: &str,
    second: &str,
) -> Result<(Vec<u8>, Vec<u8>), InputFault>
    requires first { I.may_ask inputs.old first.now }
    requires second { I.may_ask inputs.old second.now }
    ensures kept { I.told inputs.new ≡ I.told inputs.old }
    ensures same_names { (other : List ℕ) → I.may_ask inputs.new other ↔ I.may_ask inputs.old other }
    ensures later { I.faults inputs.old ≤ I.faults inputs.new }
    ensures failed { result ≡ Err InputFault.Failed → Rose (I.faults inputs.old) (I.faults inputs.new) }
    ensures first_there { OnOk result (IsThere (I.told inputs.old) first.now) }
    ensures second_there { OnOk result (IsThere (I.told inputs.old) second.now) }
    ensures first_read { IfOk result (λ both. IsReadTo (I.told inputs.old) first.now FILE_READ both.0.items) }
    ensures second_read { IfOk result (λ both. IsReadTo (I.told inputs.old) second.now FILE_READ both.1.items) }
{
    let one = read_all(alloc, inputs, first, FILE_READ)?;
    let other = read_all(alloc, inputs, second, FILE_READ)?;
    Ok((one, other))
}
