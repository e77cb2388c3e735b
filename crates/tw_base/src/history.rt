// Histories: threads, steps, archives, the labels of all that is hashed, and what is claimed of them; whole ones are in tw_history.

pub(crate) mod anchor;
pub(crate) mod archive_entry;
pub(crate) mod content;
pub(crate) mod content_taking;
pub(crate) mod history_laws;
pub(crate) mod labels;
pub(crate) mod question;
pub(crate) mod received_thread;
pub(crate) mod refusal;
pub(crate) mod report;
pub(crate) mod root;
pub(crate) mod step_events;
pub(crate) mod thread;
pub(crate) mod thread_writing;
pub(crate) mod told_labels;
pub(crate) mod tree_proof;
pub(crate) mod way;
