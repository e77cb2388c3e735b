// Formats: readers and writers of fields, each over one codec, and pages from their front.

pub(crate) mod ending;
pub(crate) mod event_taking;
pub(crate) mod fields;
// Public, since its writers have the names of those that append to `Bytes`: they are used as those of `tw_base::fixed`.
pub mod fixed;
pub(crate) mod flag;
pub(crate) mod page_bytes;
pub(crate) mod taking;
pub(crate) mod time;
pub(crate) mod writers;
