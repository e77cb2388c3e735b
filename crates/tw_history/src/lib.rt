// Histories in memory and their files.
#![tactic(auto)]

mod authenticators;
mod fault;
mod history;
mod laws;
mod links;
mod lookup;
mod pass;
mod path_links;
mod reading;
mod reading_steps;
mod showing;
mod sizes;
mod soundness;
mod step;
mod step_digests;
mod stops;
mod writing;

pub use authenticators::auth_of;
pub use fault::{HistoryFault, ShowFault};
pub use history::History;
pub use laws::history_laws;
pub use lookup::{count_of_steps, table_of};
pub use pass::{Digests, auth_passed, begin_pass, pass_steps};
pub use reading::read_history;
pub use showing::show_event;
pub use soundness::is_sound;
pub use step::{Node, Nodes, Step, Steps};
pub use stops::{Stop, stop_at, stops_to};
pub use tw_base::Content;
pub use writing::{put_file_front, put_recorded, write_history};
