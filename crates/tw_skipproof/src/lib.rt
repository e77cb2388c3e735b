// Paths down a history's skip list, and openings of a step. The pages that keep the list are read in tw_skiplist.
#![tactic(auto)]

mod climbing;
mod existence;
mod existence_reading;
mod hop;
mod laws;
mod least;
mod opening;
mod path;
mod reading;
mod writing;

pub use climbing::{climb, climb_told};
pub use existence::{ExistenceProof, Part};
pub use existence_reading::{
    PROOF_MAGIC, read_existence, take_event, take_existence_body, take_part,
};
pub use hop::next_hop;
pub use laws::{making_laws, spelling_laws};
pub use least::{LEAST_AUTHENTICATOR, LEAST_EXISTENCE};
pub use opening::{Opening, check_opening, opening_auth_told};
pub use path::{Link, LinkList, Path};
pub use reading::{
    next_step, read_opening, read_path, take_count, take_link, take_opening, take_path,
};
pub use tw_base::ReadFault;
pub use writing::{
    put_event, put_existence_body, put_opening, put_part, put_path, write_existence, write_opening,
    write_path,
};
