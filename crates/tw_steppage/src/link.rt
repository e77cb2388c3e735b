// What the page of a step has of each link: the page and the authenticator of the step to which it leads.

use tw_base::Digest;

/// A step that a later one has a link to: its page (0 for step 0) and its authenticator.
#[derive(Clone, Copy, Default, Debug, PartialEq, Eq, Drop)]
pub struct StepRef {
    pub page: u64,
    pub auth: Digest,
}
