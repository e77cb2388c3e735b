// Whether bytes are the page of a step that may stand there, by the readers of tw_steppage; `walking.rt` reads the page.

ghost use Rattle.std.specs.Prelude.{◌≡◌, ◌<◌, ◌^◌, suc, length, IfSome, MatchOption};
ghost use Rattle.tw_base.specs.kinds.Levels.{top_level};
ghost use Rattle.tw_disk.specs.Found.Found.{Is, Bad};
ghost use Rattle.tw_steppage.specs.StepPages.{HasRanges};
ghost use Rattle.tw_skiplist.specs.StepPagesRead.{step_in};

use tw_base::{Page, page_to};
use tw_steppage::{StepPage, keeps_rules, take_step};

/// The fields and links of the page of this step, where the bytes are one that may stand in the page
/// of this number.
pub(crate) fn read_step_page(page: u64, step: u64, bytes: &Page) -> Option<StepPage>
    requires { step < 2 ^ 40 }
    ensures answer { MatchOption result (step_in page step bytes.now ≡ Bad page) (λ p. step_in page step bytes.now ≡ Is (p.fields, p.links.items)) }
    ensures link_count { IfSome result (λ p. length p.links.items ≡ suc (top_level step)) }
    ensures ranges { IfSome result (λ p. HasRanges p.fields) }
{
    let mut at = 0;
    let read = take_step(bytes, &mut at, step);
    let Some(found) = page_to(bytes, at, read) else {
        return None;
    };
    if keeps_rules(page, step, &found) {
        Some(found)
    } else {
        None
    }
}
