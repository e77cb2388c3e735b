// The small files that services and verifiers are given: anchors, events, messages and receipts.
#![tactic(auto)]

mod anchors;
mod events;
mod message;
mod receipt;
mod split;

pub use anchors::{AnchorFault, read_anchors};
pub use events::{events_file_laws, read_events};
pub use message::{Message, history_message_laws, message_laws, read_message, write_message};
pub use receipt::{
    Malformed, RECEIPT_SIZE, Receipt, history_receipt_laws, read_receipt, receipt_laws,
    take_receipt, write_receipt,
};
pub use split::first_place;
