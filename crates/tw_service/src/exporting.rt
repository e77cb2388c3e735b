// The file of a service's history, as a question that is asked of it; `tw_export` makes the file.

ghost use Rattle.std.specs.Prelude.{◌≡◌, ◌⊎◌, ◌≤◌, IfErr};
ghost use Rattle.tw_disk.specs.Answers.{ReadsOr};
ghost use Rattle.tw_answers.specs.Refusals.{IsFault, IsTooLong, service_refusals};
ghost use Rattle.tw_service.specs.Exporting.{history_file};

use std::alloc::Global;
use tw_answers::Refusal;
use tw_base::limits::LAST_STEP;
use tw_base::{Bytes, Hasher, Name};
use tw_disk::Pages;
use tw_export::export_file;
use tw_skiplist::Head;

/// The file of the whole history.
#[tactic(auto, unfolding(crate::specs::Exporting::history_file))]
pub(crate) fn make_file<P: Pages, H: Hasher>(
    alloc: Global,
    pages: &mut P,
    name: &Name,
    head: &Head,
) -> Result<Bytes, Refusal>
    requires { head.now.step ≤ LAST_STEP }
    ensures reads { ReadsOr service_refusals P.view P.same pages.old pages.new (λ bytes. bytes) result (IfErr result (λ refusal. IsFault refusal ⊎ IsTooLong refusal))
        (λ ps. history_file H.dig ps name.now head.now) }
{
    match export_file::<P, H>(alloc, pages, name, head)? {
        Ok(bytes) => Ok(bytes),
        Err(bytes) => Err(Refusal::TooLong { bytes }),
    }
}
