//! A follower: the heads of one service on a disk, which it keeps through every crash, and which go on along one
//! history alone.
//!
//! A *head* is a thread of the followed service: one of its steps, and its authenticator there. A follower moves to a
//! later head only by a message whose link climbs from the head that it has.
#![tactic(auto)]

mod disk_laws;
mod follower;
mod head_page;
mod judging;
mod laws;
mod limits;
mod reading;
mod record;
mod root;

pub use disk_laws::disk_run_laws;
pub use follower::Follower;
pub use judging::Offered;
pub use laws::{image_laws, offer_laws, root_laws, run_laws};
pub use limits::limit_laws;
pub use tw_base::FollowRefusal;
