// An event among the events of its step, as a value of proofs; tw_events makes and checks it.

use crate::kinds::label_list::Labels;
use crate::kinds::sequence::Bytes;

/// An event under the root of its step's events: its index among them (from 0), its bytes, and its
/// audit path from the leaf upwards (RFC 6962, section 2.1.1).
#[derive(Drop, Debug)]
pub struct EventPart {
    pub index: u32,
    pub event: Bytes,
    pub path: Labels,
}
