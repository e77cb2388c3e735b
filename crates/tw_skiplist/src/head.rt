// The head of a history in pages: its last step, that step's authenticator and its page.

use tw_base::Digest;

/// The last step of a history, its authenticator and its page. A history of no step has step 0,
/// the authenticator of its name, and page 0.
#[derive(Clone, Copy, Debug, PartialEq, Eq, Drop)]
pub struct Head {
    pub step: u64,
    pub auth: Digest,
    pub page: u64,
}
