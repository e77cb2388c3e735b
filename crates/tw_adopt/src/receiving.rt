// What an accepted proof shows of the service that is taken over: who received which thread of it.

use tw_base::{Entry, Name};

/// What an accepted proof shows of a service: that another one, `by`, received the entry's thread of it, at the
/// entry's archived step.
#[derive(Clone, Copy, PartialEq, Eq, Debug, Drop)]
pub struct Receiving {
    pub by: Name,
    pub entry: Entry,
}
