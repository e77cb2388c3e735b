// The earliest steps of services to which the steps of one lead, by hops that receipts tell.
#![tactic(auto)]

mod arriving;
mod atlas;
mod checking;
mod laws;
pub mod limits;
mod ordering;
mod planning;
mod printing;
mod reading;
mod rounds;

pub use atlas::{Arrival, ArrivalList, Atlas, Leg, LegList};
pub use checking::check_atlas;
pub use laws::{atlas_laws, receipt_file_laws};
pub use limits::limit_laws;
pub use planning::plan;
pub use printing::print_atlas;
pub use reading::{add_hops, receipt_hop};
pub use tw_base::{Hop, HopList};
