//! What is told of a history that pages keep: its root record, the tables of refusals, and the proofs made of its pages.
#![tactic(auto)]

mod laws;
mod limits;
mod proving;
mod record;
mod refusal;
mod root;
mod showing;

pub use laws::record_laws;
pub use limits::{
    MOST_PAGES_OF_A_STEP, ROOT_BYTES, TIMED_ROOT_BYTES, append_refusal, archive_refusal,
    event_refusal, limit_laws, limits_refusal, link_refusal, order_refusal, own_refusal,
    thread_refusal, top_refusal,
};
pub use proving::{make_link, make_proof, part_under, path_down};
pub use refusal::refusal_of_tree;
pub use root::{RootRecord, read_root, root_record};
pub use showing::{make_absence, make_thread, show};
pub use tw_base::Refusal;
