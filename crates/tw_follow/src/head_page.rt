// The bytes of the pages of a follower's heads; those of a service's pages are in tw_steppage and tw_rbnode.

ghost use Rattle.std.specs.Prelude.{◌≡◌, ◌≢◌, ◌<◌, ◌≤◌, length, IfErr, IfSome, MatchOption};
ghost use Rattle.tw_base.specs.format.Taking.{Takes};
ghost use Rattle.tw_base.specs.history.Limits.{IsStep};
ghost use Rattle.tw_disk.specs.Found.Found.{Is, Bad};
ghost use Rattle.tw_follow.specs.HeadPages.{head_codec, head_in, head_page_bytes};

use tw_base::limits::LAST_STEP;
use tw_base::{Digest, Page, PageFront, ReadFault, page_to, take_digest, take_number, take_text};

/// How a head page begins; the pages of a service begin with 1, 2 or 3.
const KIND: [u8; 1] = [4];

/// What the page of a head tells: the head's step (1 to 2^40 - 1), its authenticator there, and the page of the head
/// before it, which is 0 for the first one.
#[derive(Clone, Copy, Debug, PartialEq, Eq, Drop)]
pub(crate) struct HeadPage {
    pub step: u64,
    pub auth: Digest,
    pub before: u64,
}

/// The page of a head.
#[tactic(auto, unfolding(crate::specs::HeadPages::head_codec, tw_base::specs::format::Seen::codecs))]
pub(crate) fn head_page(head: &HeadPage) -> Page
    ensures { result ≡ head_page_bytes head.now }
{
    let mut page = PageFront::new();
    page.put(&KIND);
    page.put_number(head.step, 8);
    page.put_digest(&head.auth);
    page.put_number(head.before, 8);
    page.into_page()
}

/// Takes what a head page has.
#[tactic(auto, unfolding(crate::specs::HeadPages::head_codec, tw_base::specs::format::Seen::records))]
fn take_head(bytes: &[u8], at: &mut u64) -> Result<HeadPage, ReadFault>
    requires { at.old ≤ length bytes.now }
    ensures takes { Takes head_codec (λ p. p) bytes.now at.old at.new result }
    ensures memory { IfErr result (λ fault. fault ≢ ReadFault.NoMemory) }
{
    take_text(bytes, at, &KIND)?;
    let step = take_number(bytes, at, 8, 1, LAST_STEP)?;
    let auth = take_digest(bytes, at)?;
    let before = take_number(bytes, at, 8, 0, u64::MAX)?;
    Ok(HeadPage { step, auth, before })
}

/// What the bytes tell of a head, where they are a head page that may stand in the page of this number.
pub(crate) fn read_head_page(page: u64, bytes: &Page) -> Option<HeadPage>
    ensures answer { MatchOption result (head_in page bytes.now ≡ Bad page) (λ p. head_in page bytes.now ≡ Is p) }
    ensures below { IfSome result (λ p. p.before < page) }
    ensures some { IfSome result (λ p. 0 < p.step) }
{
    let mut at = 0;
    let read = take_head(bytes, &mut at);
    let Some(found) = page_to(bytes, at, read) else {
        return None;
    };
    if found.before < page {
        Some(found)
    } else {
        None
    }
}
